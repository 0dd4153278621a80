//! The step that splits a range.

use crate::run::{Policy, Run};
use live_lanes::Labels;
use spiller::{MOST_RANGES, RunStop};
use split_choose::{cut_region_over, local, per_block, region_over};
use split_kit::split;
use std::alloc::AllocError;
use target_base::Reg;
use watchers::{Kind, Step};

/// How often a range may come from a split before it isn't split any more.
const MOST_DEPTH: u32 = 3;

/// A split that is offered.
#[derive(Drop)]
struct Offer {
    kind: Kind,
    register: Option<Reg>,
    labels: Labels,
}

impl Run {
    /// How often a range comes from a split.
    fn depth(&self, v: u32) -> u32 {
        self.depths.get(v as usize).copied().unwrap_or(0)
    }

    fn set_depth(&mut self, v: u32, depth: u32) {
        if let Some(place) = self.depths.get_mut(v as usize) {
            *place = depth;
        }
    }

    /// The split that is offered to a range: region before block before local.
    fn offer(&self, v: u32) -> Result<Option<Offer>, AllocError> {
        if self.depth(v) >= MOST_DEPTH {
            return Ok(None);
        }
        if let Some(offer) = self.region_offer(v)? {
            return Ok(Some(offer));
        }
        match self.block_offer(v)? {
            Some(offer) => Ok(Some(offer)),
            None => self.local_offer(v),
        }
    }

    /// The region that is offered to a range, with its register.
    fn found_region(&self, v: u32) -> Result<Option<(Reg, Labels)>, AllocError> {
        if self.policy != Policy::Cut {
            return region_over(self.alloc, &self.matrix, v, &self.freqs, &self.bundles);
        }
        let found = cut_region_over(self.alloc, &self.matrix, v, &self.freqs, &self.bundles)?;
        Ok(match found {
            Some(region) => Some((region.reg, region.labels)),
            None => None,
        })
    }

    fn region_offer(&self, v: u32) -> Result<Option<Offer>, AllocError> {
        Ok(match self.found_region(v)? {
            Some((r, labels)) => Some(Offer {
                kind: Kind::Region,
                register: Some(r),
                labels,
            }),
            None => None,
        })
    }

    fn block_offer(&self, v: u32) -> Result<Option<Offer>, AllocError> {
        Ok(match per_block(self.alloc, &self.matrix, v)? {
            Some(labels) => Some(Offer {
                kind: Kind::Block,
                register: None,
                labels,
            }),
            None => None,
        })
    }

    fn local_offer(&self, v: u32) -> Result<Option<Offer>, AllocError> {
        Ok(match local(self.alloc, &self.matrix, v)? {
            Some((r, labels)) => Some(Offer {
                kind: Kind::Local,
                register: Some(r),
                labels,
            }),
            None => None,
        })
    }

    /// Splits a range where that is offered. Its parts wait.
    pub fn divide(&mut self, v: u32) -> Result<Option<Step>, RunStop> {
        match self.offer(v)? {
            Some(offer) => Ok(Some(self.divide_as(v, offer)?)),
            None => Ok(None),
        }
    }

    fn divide_as(&mut self, v: u32, offer: Offer) -> Result<Step, RunStop> {
        let Offer {
            kind,
            register,
            labels,
        } = offer;
        let children = split(self.alloc, &mut self.matrix, v, &labels)?;
        self.forget_uses(v);
        self.add_children(children.as_slice(), v)?;
        if self.matrix.live().func().classes.len() > MOST_RANGES {
            return Err(RunStop::Ranges);
        }
        Ok(Step::Divide(v, kind, register, children))
    }

    fn add_children(&mut self, children: &[u32], parent: u32) -> Result<(), AllocError> {
        self.add_ranges()?;
        'children: for child in children {
            self.add_child(*child, parent)?;
        }
        Ok(())
    }

    /// A part of a split range waits, where some instruction touches it.
    fn add_child(&mut self, child: u32, parent: u32) -> Result<(), AllocError> {
        self.slots.adopt(child, parent)?;
        let depth = self.depth(parent).saturating_add(1);
        self.set_depth(child, depth);
        if !self.matrix.live().is_touched(child) {
            return Ok(());
        }
        self.enqueue(child)
    }
}
