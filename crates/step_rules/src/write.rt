//! The trait of a model whose maps can be written.
ghost use Rattle.std.specs.Prelude.{◌≡◌, ◌≤◌, ◌<◌, length, OnOk, OnErr, Some, None, true, false, is_some, nat_eq};
ghost use Rattle.std.specs.FinMap.{get};
ghost use Rattle.std.specs.List.{insert, remove};
ghost use Rattle.finite_maps.specs.Maps.{set, set_all};
ghost use Rattle.model_state.specs.Listing.{values_at};
ghost use Rattle.model_state.specs.Lists.{entry_of, shifted};
ghost use Rattle.model_state.specs.State.{is_live, place_eq, value_count, link_count, inner_count};
ghost use Rattle.model_state.specs.Steps.{place_live, mirror_given, mirror_write};

use ecore_meta::Value;
use model_state::{Id, Look, Place};
use std::alloc::{AllocError, Global};
use texts::List;

/// A model whose maps can be written: what the steps ask of it beside its queries, and what they write. After an error,
/// which is out of memory, nothing has changed.
pub trait Write: Look {
    /// Whether no attribute of the element is set.
    fn has_no_value(&self, e: &Id) -> bool
        ensures { result ≡ nat_eq (value_count (Self.state self.now) e.now) 0 };

    /// Whether no reference begins or ends at the element.
    fn has_no_row(&self, e: &Id) -> bool
        ensures { result ≡ nat_eq (link_count (Self.state self.now) e.now) 0 };

    /// Whether no element stands inside the element.
    fn has_no_child(&self, e: &Id) -> bool
        ensures { result ≡ nat_eq (inner_count (Self.state self.now) e.now) 0 };

    /// Makes an element, without values and references.
    fn make(&mut self, e: &Id, class: u32, place: &Place, rank: u64) -> Result<(), AllocError>
        requires absent { get (Self.state self.old).kind e.now ≡ None }
        requires live { place_live (Self.state self.old) place.now ≡ true }
        ensures ok { OnOk result (Self.state self.new ≡ record (Self.state self.old) { kind = set (Self.state self.old).kind e.now (Some class); place = set (Self.state self.old).place e.now (Some place.now); prank = set (Self.state self.old).prank e.now (Some rank) }) }
        ensures err { OnErr result (Self.state self.new ≡ Self.state self.old) };

    /// Takes an element out that stands in the place and holds nothing, and that nothing names.
    fn take_out(&mut self, e: &Id, place: &Place)
        requires live { is_live (Self.state self.old) e.now ≡ true }
        requires stands { get (Self.state self.old).place e.now ≡ Some place.now }
        requires no_value { nat_eq (value_count (Self.state self.old) e.now) 0 ≡ true }
        requires no_row { nat_eq (link_count (Self.state self.old) e.now) 0 ≡ true }
        requires no_child { nat_eq (inner_count (Self.state self.old) e.now) 0 ≡ true }
        ensures { Self.state self.new ≡ record (Self.state self.old) { kind = set (Self.state self.old).kind e.now None; place = set (Self.state self.old).place e.now None; prank = set (Self.state self.old).prank e.now None } };

    /// Makes the list the values of the attribute, which isn't set where the list is empty.
    fn put_values(&mut self, e: &Id, f: u32, values: List<Value>) -> Result<(), AllocError>
        requires { is_live (Self.state self.old) e.now ≡ true }
        ensures ok { OnOk result (Self.state self.new ≡ record (Self.state self.old) { attr = set (Self.state self.old).attr (e.now, f) (entry_of values) }) }
        ensures err { OnErr result (Self.state self.new ≡ Self.state self.old) };

    /// Puts a value into those of an attribute, before the one at the index or last. A model that changes the list where
    /// it stands has its own.
    fn insert_value(
        &mut self,
        alloc: Global,
        e: &Id,
        f: u32,
        at: usize,
        v: &Value,
    ) -> Result<(), AllocError>
        requires live { is_live (Self.state self.old) e.now ≡ true }
        requires at { at ≤ length (values_at (Self.state self.old) e.now f) }
        ensures ok { OnOk result (Self.state self.new ≡ record (Self.state self.old) { attr = set (Self.state self.old).attr (e.now, f) (entry_of (insert (values_at (Self.state self.old) e.now f) at v.now)) }) }
        ensures err { OnErr result (Self.state self.new ≡ Self.state self.old) }
    {
        let mut values = self.attr(alloc, e, f)?;
        values.insert(at, v.copy(alloc)?)?;
        self.put_values(e, f, values)
    }

    /// Takes the value at an index out of those of an attribute, which isn't set where none is left.
    fn remove_value(&mut self, alloc: Global, e: &Id, f: u32, at: usize) -> Result<(), AllocError>
        requires live { is_live (Self.state self.old) e.now ≡ true }
        requires at { at < length (values_at (Self.state self.old) e.now f) }
        ensures ok { OnOk result (Self.state self.new ≡ record (Self.state self.old) { attr = set (Self.state self.old).attr (e.now, f) (entry_of (remove (values_at (Self.state self.old) e.now f) at)) }) }
        ensures err { OnErr result (Self.state self.new ≡ Self.state self.old) }
    {
        let mut values = self.attr(alloc, e, f)?;
        drop(values.remove(at));
        self.put_values(e, f, values)
    }

    /// Takes the value at one index of an attribute out and puts it in at another.
    fn shift_value(
        &mut self,
        alloc: Global,
        e: &Id,
        f: u32,
        from: usize,
        to: usize,
    ) -> Result<(), AllocError>
        requires live { is_live (Self.state self.old) e.now ≡ true }
        requires from { from < length (values_at (Self.state self.old) e.now f) }
        requires to { to < length (values_at (Self.state self.old) e.now f) }
        ensures ok { OnOk result (Self.state self.new ≡ record (Self.state self.old) { attr = set (Self.state self.old).attr (e.now, f) (entry_of (shifted (values_at (Self.state self.old) e.now f) from to)) }) }
        ensures err { OnErr result (Self.state self.new ≡ Self.state self.old) }
    {
        let mut values = self.attr(alloc, e, f)?;
        let v = values.remove(from);
        values.insert(to, v)?;
        self.put_values(e, f, values)
    }

    /// Puts a reference in, and its mirror where there is an opposite, or neither.
    fn join(
        &mut self,
        opposite: Option<u32>,
        a: &Id,
        f: u32,
        ra: u64,
        b: &Id,
        rb: Option<u64>,
    ) -> Result<(), AllocError>
        requires source { is_live (Self.state self.old) a.now ≡ true }
        requires target { is_live (Self.state self.old) b.now ≡ true }
        requires absent { get (Self.state self.old).row (a.now, f, b.now) ≡ None }
        requires given { mirror_given opposite f rb ≡ true }
        ensures ok { OnOk result (Self.state self.new ≡ record (Self.state self.old) { row = set_all (set (Self.state self.old).row (a.now, f, b.now) (Some ra)) (mirror_write opposite a.now b.now rb) }) }
        ensures err { OnErr result (Self.state self.new ≡ Self.state self.old) };

    /// Takes a reference out, and its mirror where there is an opposite.
    fn part(&mut self, opposite: Option<u32>, a: &Id, f: u32, b: &Id) -> Result<(), AllocError>
        requires source { is_live (Self.state self.old) a.now ≡ true }
        requires target { is_live (Self.state self.old) b.now ≡ true }
        ensures ok { OnOk result (Self.state self.new ≡ record (Self.state self.old) { row = set_all (set (Self.state self.old).row (a.now, f, b.now) None) (mirror_write opposite a.now b.now None) }) }
        ensures err { OnErr result (Self.state self.new ≡ Self.state self.old) };

    /// Gives a reference that is there another rank.
    fn rerank_row(&mut self, a: &Id, f: u32, b: &Id, rank: u64) -> Result<(), AllocError>
        requires { is_some (get (Self.state self.old).row (a.now, f, b.now)) ≡ true }
        ensures ok { OnOk result (Self.state self.new ≡ record (Self.state self.old) { row = set (Self.state self.old).row (a.now, f, b.now) (Some rank) }) }
        ensures err { OnErr result (Self.state self.new ≡ Self.state self.old) };

    /// Puts an element into another place, where it gets the rank.
    fn stand(&mut self, e: &Id, from: &Place, to: &Place, rank: u64) -> Result<(), AllocError>
        requires stands { get (Self.state self.old).place e.now ≡ Some from.now }
        requires differ { place_eq from.now to.now ≡ false }
        requires live { place_live (Self.state self.old) to.now ≡ true }
        ensures ok { OnOk result (Self.state self.new ≡ record (Self.state self.old) { place = set (Self.state self.old).place e.now (Some to.now); prank = set (Self.state self.old).prank e.now (Some rank) }) }
        ensures err { OnErr result (Self.state self.new ≡ Self.state self.old) };

    /// Gives an element another rank where it stands.
    fn rerank(&mut self, e: &Id, rank: u64) -> Result<(), AllocError>
        requires { is_live (Self.state self.old) e.now ≡ true }
        ensures ok { OnOk result (Self.state self.new ≡ record (Self.state self.old) { prank = set (Self.state self.old).prank e.now (Some rank) }) }
        ensures err { OnErr result (Self.state self.new ≡ Self.state self.old) };
}
