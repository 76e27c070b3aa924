//! How many rows of a document stand in each place so far, from which new elements get their ranks.
ghost use Rattle.std.specs.Prelude.{◌≡◌, ◌<◌, OnOk};
ghost use Rattle.model_import.specs.Counts.{CountsAlso, counted};
ghost use Rattle.import_laws.specs.Names.{greatest_number};

use model_documents::DocParent;
use std::alloc::AllocError;
use std::collections::BTreeMap;

/// How many elements stand in a place, by the counts so far; those at the root are not counted.
pub(crate) fn counted(counts: &BTreeMap<(usize, u32), usize>, parent: Option<DocParent>) -> usize
    ensures { result ≡ counted counts.now parent }
{
    match parent {
        None => 0,
        Some(place) => counts
            .get(&(place.row, place.feature))
            .copied()
            .unwrap_or(0),
    }
}

/// One more element stands in the place, where n stood before.
pub(crate) fn count_up(
    counts: &mut BTreeMap<(usize, u32), usize>,
    parent: Option<DocParent>,
    n: usize,
) -> Result<(), AllocError>
    requires before { n ≡ counted counts.old parent }
    requires few { n < greatest_number }
    ensures { OnOk result (CountsAlso counts.old parent counts.new) }
{
    match parent {
        None => {}
        Some(place) => {
            counts.insert((place.row, place.feature), n + 1)?;
        }
    }
    Ok(())
}
