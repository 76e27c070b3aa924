//! How steps and queries are spread over models that stand side by side.

/// How many elements a batch has steps for, in all the models together.
const COUNT: u64 = 500;

/// How many turns have one target, where it is said how many models there are: as many as each of 100 models has.
const GROUP: u64 = 5;

/// So many models of so many elements. Each model has so many turns, whose elements are so far apart. So many elements after
/// one another have one target, to which they refer.
#[derive(Clone, Copy, Drop)]
pub struct Spread {
    pub elements: u64,
    pub models: u32,
    pub turns: u64,
    apart: u64,
    reach: u64,
}

impl Spread {
    /// One model with one target, or so many models. None where there is no model, or where there are more than a batch
    /// has elements for. None too where a target would be the element of a turn.
    pub fn new(elements: u32, models: Option<u32>) -> Option<Spread> {
        let elements = elements as u64;
        let turns = COUNT.checked_div(models.unwrap_or(1) as u64)?;
        let apart = elements.saturating_sub(2).checked_div(turns)?;
        if models.is_some() && apart < 2 {
            return None;
        }
        Some(Spread {
            elements,
            models: models.unwrap_or(1),
            turns,
            apart,
            reach: if models.is_some() {
                apart.saturating_mul(GROUP)
            } else {
                elements
            },
        })
    }

    /// How many elements all the models have together.
    pub fn all_elements(self) -> u64 {
        self.elements.saturating_mul(self.models as u64)
    }

    /// The number of the element of a turn, which is the same in each model.
    pub fn number_of(self, turn: u64) -> u64 {
        turn.saturating_mul(self.apart).saturating_add(2)
    }

    /// The number of the target of the element of a number.
    pub fn target_of(self, number: u64) -> u64 {
        let group = number.checked_div(self.reach).unwrap_or(0);
        group.saturating_mul(self.reach).saturating_add(1)
    }
}

/// A step that the model of that number takes, or an element that it is asked of.
#[derive(Drop)]
pub struct Turn<T> {
    pub model: u32,
    pub what: T,
}
