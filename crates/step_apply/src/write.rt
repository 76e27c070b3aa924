//! The writes of a model over ordered maps, and the steps over them.
ghost use Rattle.std.specs.Prelude.{◌≡◌, Some, None, OnOk, OnErr};
ghost use Rattle.std.specs.FinMap.{get};
ghost use Rattle.finite_maps.specs.Maps.{set};

use crate::Plain;
use crate::kinds::Kinds;
use crate::places::Places;
use crate::rows::{Rows, row_key};
use ecore_meta::{Metamodel, Value};
use model_state::{Change, Id, Place, Placed, Step, StepFault};
use std::alloc::{AllocError, Global};
use step_rules::{Write, take_step};
use texts::List;

/// Makes an element live, with its class.
fn put_kind(kinds: &mut Kinds, alloc: Global, e: &Id, class: u32) -> Result<(), AllocError>
    ensures ok { OnOk result (kinds.new ≡ set kinds.old e.now (Some class)) }
    ensures err { OnErr result (kinds.new ≡ kinds.old) }
{
    kinds.put(e.copy(alloc)?, class)
}

/// Puts an element to a place with a rank.
fn put_place(
    places: &mut Places,
    alloc: Global,
    e: &Id,
    place: &Place,
    rank: u64,
) -> Result<(), AllocError>
    ensures place { OnOk result (places.new.place ≡ set places.old.place e.now (Some place.now)) }
    ensures rank { OnOk result (places.new.rank ≡ set places.old.rank e.now (Some rank)) }
    ensures err { OnErr result (places.new ≡ places.old) }
{
    let id = e.copy(alloc)?;
    let place = place.copy(alloc)?;
    places.put(id, Placed { place, rank })
}

/// Gives the row from an element to another by a feature its rank.
fn set_rank(
    rows: &mut Rows,
    alloc: Global,
    a: &Id,
    f: u32,
    b: &Id,
    rank: u64,
) -> Result<(), AllocError>
    ensures ok { OnOk result (rows.new ≡ set rows.old (a.now, f, b.now) (Some rank)) }
    ensures err { OnErr result (rows.new ≡ rows.old) }
{
    rows.put(row_key(alloc, a, f, b)?, rank)
}

/// Puts a row in that is not there, and the row back by another feature. Where that is refused the row goes again.
fn put_pair(
    rows: &mut Rows,
    alloc: Global,
    key: &(Id, u32, Id),
    rank: u64,
    g: u32,
    back: u64,
) -> Result<(), AllocError>
    requires { get rows.old key.now ≡ None }
    ensures ok { OnOk result (rows.new ≡ set (set rows.old key.now (Some rank)) (key.now.2, g, key.now.0) (Some back)) }
    ensures err { OnErr result (rows.new ≡ rows.old) }
{
    set_rank(rows, alloc, &key.0, key.1, &key.2, rank)?;
    match set_rank(rows, alloc, &key.2, g, &key.0, back) {
        Ok(()) => Ok(()),
        Err(error) => {
            rows.drop_at(key);
            Err(error)
        }
    }
}

impl Write for Plain {
    fn has_no_value(&self, e: &Id) -> bool {
        self.attrs.is_bare(e)
    }

    fn has_no_row(&self, e: &Id) -> bool {
        self.rows.count_at(e) == 0
    }

    fn has_no_child(&self, e: &Id) -> bool {
        self.places.count_inside(e) == 0
    }

    fn make(&mut self, e: &Id, class: u32, place: &Place, rank: u64) -> Result<(), AllocError> {
        put_kind(&mut self.kinds, self.alloc, e, class)?;
        match put_place(&mut self.places, self.alloc, e, place, rank) {
            Ok(()) => Ok(()),
            Err(error) => {
                self.kinds.drop_at(e);
                Err(error)
            }
        }
    }

    fn take_out(&mut self, e: &Id, place: &Place) {
        let _place = place;
        self.kinds.drop_at(e);
        self.places.drop_at(e);
    }

    fn put_values(&mut self, e: &Id, f: u32, values: List<Value>) -> Result<(), AllocError> {
        if values.len() == 0 {
            self.attrs.drop_at(e, f);
            return Ok(());
        }
        let id = e.copy(self.alloc)?;
        self.attrs.put(self.alloc, id, f, values)
    }

    fn join(
        &mut self,
        opposite: Option<u32>,
        a: &Id,
        f: u32,
        ra: u64,
        b: &Id,
        rb: Option<u64>,
    ) -> Result<(), AllocError> {
        match opposite {
            None => set_rank(&mut self.rows, self.alloc, a, f, b, ra),
            Some(g) => {
                let Some(rank) = rb else {
                    return Err(AllocError);
                };
                let key = row_key(self.alloc, a, f, b)?;
                put_pair(&mut self.rows, self.alloc, &key, ra, g, rank)
            }
        }
    }

    fn part(&mut self, opposite: Option<u32>, a: &Id, f: u32, b: &Id) -> Result<(), AllocError> {
        let key = row_key(self.alloc, a, f, b)?;
        match opposite {
            None => {
                self.rows.drop_at(&key);
                Ok(())
            }
            Some(g) => {
                let mirror = row_key(self.alloc, b, g, a)?;
                self.rows.drop_at(&key);
                self.rows.drop_at(&mirror);
                Ok(())
            }
        }
    }

    fn rerank_row(&mut self, a: &Id, f: u32, b: &Id, rank: u64) -> Result<(), AllocError> {
        set_rank(&mut self.rows, self.alloc, a, f, b, rank)
    }

    fn stand(&mut self, e: &Id, from: &Place, to: &Place, rank: u64) -> Result<(), AllocError> {
        let _from = from;
        put_place(&mut self.places, self.alloc, e, to, rank)
    }

    fn rerank(&mut self, e: &Id, rank: u64) -> Result<(), AllocError> {
        // A live element stands somewhere in each good model.
        if self.places.find(e).is_some() {
            self.places.rerank(e, rank)
        } else {
            Err(AllocError)
        }
    }
}

impl Change for Plain {
    fn apply(&mut self, meta: &Metamodel, step: &Step) -> Result<(), StepFault> {
        let alloc = self.alloc;
        take_step(self, alloc, meta, step)
    }
}
