//! Leaving out of formulas that aren't needed.

use crate::heads::{Head, without_head};
use crate::houdini::Drafting;
use crate::outcome::Stop;
use policy_set::Policy;
use std::alloc::{AllocError, Global};

/// A formula's place: the number of its head, and its own there.
#[derive(Clone, Copy, PartialEq, Eq)]
struct Place {
    head: usize,
    form: usize,
}

/// The places of all formulas, the last first.
fn places(alloc: Global, heads: &[Head]) -> Result<Vec<Place>, AllocError> {
    let mut found = Vec::new(alloc);
    for i in 0..heads.len() {
        let head = heads.len() - 1 - i;
        for k in 0..heads[head].forms.len() {
            let form = heads[head].forms.len() - 1 - k;
            found.push(Place { head, form })?;
        }
    }
    Ok(found)
}

/// At most `size` places from place `from` on.
fn part_of(all: &[Place], from: usize, size: usize) -> &[Place] {
    let to = all.len().min(from.saturating_add(size));
    if from < to { &all[from..to] } else { &[] }
}

/// The heads with the formulas that aren't at these places.
fn without(alloc: Global, heads: &[Head], gone: &[Place]) -> Result<Vec<Head>, AllocError> {
    let mut kept = Vec::new(alloc);
    for head in 0..heads.len() {
        let mut forms = Vec::new(alloc);
        for form in 0..heads[head].forms.len() {
            if !gone.contains(&Place { head, form }) {
                forms.push(heads[head].forms[form])?;
            }
        }
        kept.push(Head {
            index: heads[head].index,
            forms,
        })?;
    }
    Ok(kept)
}

impl Drafting {
    /// Returns whether no formula is missing of these heads, and at most so many other goals aren't
    /// easy.
    fn is_enough(
        &mut self,
        alloc: Global,
        policy: &Policy,
        heads: &[Head],
        hard: u32,
    ) -> Result<bool, Stop> {
        match self.ask(alloc, policy, heads, hard == 0) {
            Ok(found) => Ok(found.missing.is_empty() && found.hard <= hard),
            Err(Stop::Refused) => Ok(false),
            Err(stop) => Err(stop),
        }
    }

    /// Leaves out formulas that aren't needed for at most `hard` goals that aren't easy, in parts
    /// of `size` places, the last formulas first.
    fn shrink_by(
        &mut self,
        alloc: Global,
        policy: &Policy,
        heads: &mut Vec<Head>,
        hard: u32,
        size: usize,
    ) -> Result<(), Stop> {
        let all = places(alloc, heads)?;
        let mut gone = Vec::new(alloc);
        for number in 0..all.len() {
            let part = part_of(&all, number.saturating_mul(size), size);
            if !part.is_empty() {
                let count = gone.len();
                gone.extend_from_slice(part)?;
                let fewer = without(alloc, heads, &gone)?;
                if !self.is_enough(alloc, policy, &fewer, hard)? {
                    gone.truncate(count);
                }
            }
        }
        *heads = without(alloc, heads, &gone)?;
        Ok(())
    }

    /// Leaves out heads that have no formula, where they aren't needed.
    fn drop_heads(
        &mut self,
        alloc: Global,
        policy: &Policy,
        heads: &mut Vec<Head>,
        hard: u32,
    ) -> Result<(), Stop> {
        for k in 0..heads.len() {
            let place = heads.len().saturating_sub(1).saturating_sub(k);
            if place < heads.len() && heads[place].forms.is_empty() {
                let fewer = without_head(alloc, heads, place)?;
                if self.is_enough(alloc, policy, &fewer, hard)? {
                    *heads = fewer;
                }
            }
        }
        Ok(())
    }

    /// Leaves out what isn't needed for at most `hard` goals that aren't easy: all formulas first,
    /// then half of them, then smaller parts, then one by one, and at last heads without formulas.
    pub(crate) fn shrink(
        &mut self,
        alloc: Global,
        policy: &Policy,
        heads: &mut Vec<Head>,
        hard: u32,
    ) -> Result<(), Stop> {
        let mut size = places(alloc, heads)?.len();
        for _halving in 0..64 {
            if size > 0 {
                self.shrink_by(alloc, policy, heads, hard, size)?;
                size = if size == 1 { 0 } else { size - size / 2 };
            }
        }
        self.drop_heads(alloc, policy, heads, hard)
    }
}
