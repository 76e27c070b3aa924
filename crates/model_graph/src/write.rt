//! The writes of a graph, and the steps over them.
ghost use Rattle.std.specs.Prelude.{◌≡◌};

use crate::Graph;
use crate::lists::{list_in, list_out};
use crate::writes::{drop_attr, put_attr, write_placed};
use ecore_meta::{Metamodel, Value};
use graph_parts::Node;
use model_state::{Change, Id, Look, Place, Placed, Step, StepFault};
use std::alloc::{AllocError, Global};
use step_rules::{Write, take_step};
use texts::List;

impl Write for Graph {
    fn has_no_value(&self, e: &Id) -> bool {
        match self.nodes.find(e) {
            None => true,
            Some(node) => node.attrs.is_empty(),
        }
    }

    fn has_no_row(&self, e: &Id) -> bool {
        match self.nodes.find(e) {
            None => true,
            Some(node) => node.out.is_empty() && node.into.is_empty(),
        }
    }

    fn has_no_child(&self, e: &Id) -> bool {
        match self.nodes.find(e) {
            None => true,
            Some(node) => node.inside.is_empty(),
        }
    }

    fn make(&mut self, e: &Id, class: u32, place: &Place, rank: u64) -> Result<(), AllocError> {
        let key = e.copy(self.alloc)?;
        let id = e.copy(self.alloc)?;
        let placed = Placed {
            place: place.copy(self.alloc)?,
            rank,
        };
        self.nodes
            .put_new(key, Node::bare(self.alloc, class, placed))?;
        match list_in(
            self.alloc,
            &mut self.roots,
            &mut self.nodes,
            place,
            id,
            rank,
        ) {
            Ok(()) => Ok(()),
            Err(error) => {
                drop(self.nodes.drop_at(e));
                Err(error)
            }
        }
    }

    fn take_out(&mut self, e: &Id, place: &Place) {
        list_out(&mut self.roots, &mut self.nodes, place, e);
        drop(self.nodes.drop_at(e));
    }

    fn put_values(&mut self, e: &Id, f: u32, values: List<Value>) -> Result<(), AllocError> {
        if values.len() == 0 {
            drop_attr(&mut self.nodes, e, f);
            return Ok(());
        }
        put_attr(&mut self.nodes, e, f, values)
    }

    fn insert_value(
        &mut self,
        alloc: Global,
        e: &Id,
        f: u32,
        at: usize,
        v: &Value,
    ) -> Result<(), AllocError> {
        let v = v.copy(alloc)?;
        if self.attr_len(e, f) == 0 {
            let mut values = List::new(alloc);
            values.insert(at, v)?;
            return self.put_values(e, f, values);
        }
        self.values_mut(e, f).insert(alloc, at, v)
    }

    fn remove_value(&mut self, alloc: Global, e: &Id, f: u32, at: usize) -> Result<(), AllocError> {
        let _alloc = alloc;
        if self.attr_len(e, f) == 1 {
            drop_attr(&mut self.nodes, e, f);
            return Ok(());
        }
        self.values_mut(e, f).remove(at);
        Ok(())
    }

    fn shift_value(
        &mut self,
        alloc: Global,
        e: &Id,
        f: u32,
        from: usize,
        to: usize,
    ) -> Result<(), AllocError> {
        self.values_mut(e, f).shift(alloc, from, to)
    }

    fn join(
        &mut self,
        opposite: Option<u32>,
        a: &Id,
        f: u32,
        ra: u64,
        b: &Id,
        rb: Option<u64>,
    ) -> Result<(), AllocError> {
        match opposite {
            None => self.put_row(a, f, b, ra),
            Some(g) => {
                let key = (a.copy(self.alloc)?, f);
                let Some(rank) = rb else { unreachable!() };
                self.put_row(a, f, b, ra)?;
                match self.put_row(b, g, a, rank) {
                    Ok(()) => Ok(()),
                    Err(error) => {
                        self.drop_row(a, f, b, &key);
                        Err(error)
                    }
                }
            }
        }
    }

    fn part(&mut self, opposite: Option<u32>, a: &Id, f: u32, b: &Id) -> Result<(), AllocError> {
        let key = (a.copy(self.alloc)?, f);
        match opposite {
            None => {
                self.drop_row(a, f, b, &key);
                Ok(())
            }
            Some(g) => {
                let mirror = (b.copy(self.alloc)?, g);
                self.drop_row(a, f, b, &key);
                self.drop_row(b, g, a, &mirror);
                Ok(())
            }
        }
    }

    fn rerank_row(&mut self, a: &Id, f: u32, b: &Id, rank: u64) -> Result<(), AllocError> {
        // For what the invariant says of the two ends.
        let _alloc = self.alloc;
        self.put_row(a, f, b, rank)
    }

    fn stand(&mut self, e: &Id, from: &Place, to: &Place, rank: u64) -> Result<(), AllocError> {
        let id = e.copy(self.alloc)?;
        let placed = Placed {
            place: to.copy(self.alloc)?,
            rank,
        };
        list_in(self.alloc, &mut self.roots, &mut self.nodes, to, id, rank)?;
        list_out(&mut self.roots, &mut self.nodes, from, e);
        write_placed(&mut self.nodes, e, placed);
        Ok(())
    }

    fn rerank(&mut self, e: &Id, rank: u64) -> Result<(), AllocError> {
        let Some(node) = self.nodes.find(e) else {
            unreachable!()
        };
        let place = node.placed.place.copy(self.alloc)?;
        let id = e.copy(self.alloc)?;
        list_in(
            self.alloc,
            &mut self.roots,
            &mut self.nodes,
            &place,
            id,
            rank,
        )?;
        write_placed(&mut self.nodes, e, Placed { place, rank });
        Ok(())
    }
}

impl Change for Graph {
    fn apply(&mut self, meta: &Metamodel, step: &Step) -> Result<(), StepFault> {
        let alloc = self.alloc;
        take_step(self, alloc, meta, step)
    }
}
