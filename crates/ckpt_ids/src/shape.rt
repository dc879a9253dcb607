//! The shape of a job: the parallelism of each vertex.

ghost use Rattle.std.specs.Prelude.{◌≡◌, ℕ, ◌↔◌, false, Err, IfOk, OnOk, OnErr, sum, length, nat_le, slice_get};
ghost use Rattle.std.specs.Iterator.Adapters.{IterYieldsInOrder, IterYieldsInReverse};
ghost use Rattle.std.specs.List.{list_all};
ghost use Rattle.std.specs.Slice.Iter.{iter_rest};
ghost use Rattle.ckpt_ids.specs.Shapes.{IsShape, is_shape, is_subtask, subtasks};
ghost use Rattle.ckpt_memory.specs.Refusals.{one_more};

use crate::limits::{MOST_SUBTASKS, MOST_VERTICES};
use crate::subtask::SubtaskId;
use ckpt_memory::{Meter, list, shared};
use std::alloc::{AllocError, Global};
use std::marker::Model;
use std::slice::Iter;
use std::sync::ArcSlice;
use thiserror::Error;

/// Why no shape was made.
#[derive(Clone, Copy, Debug, PartialEq, Eq, Error)]
pub enum ShapeFault {
    /// The parallelisms are outside the limits of a shape.
    #[error("a shape has 1 to 256 parallelisms, each at least 1, and at most 4096 in sum")]
    BadShape,
    /// Memory ran out.
    #[error("out of memory")]
    Memory,
}

impl From<AllocError> for ShapeFault {
    ghost use Rattle.std.specs.Prelude.{◌≡◌};
    ghost use Rattle.ckpt_ids.specs.declared.shape.ShapeFault.TheVariants.{Memory};

    ghost from_gives = { λ _ fault. fault ≡ Memory };

    fn from(_error: AllocError) -> ShapeFault {
        ShapeFault::Memory
    }
}

/// The shape of a job: the parallelism of each vertex of its job graph.
///
/// 1 to 256 vertices, each with a parallelism of at least 1, and at most 4096 subtasks in all.
#[derive(Debug)]
pub struct Shape {
    // the copies share it, and each record has a copy
    parallelisms: ArcSlice<u32>,
    size: u32,
}

impl Drop for Shape {
    fn drop(self) {
        let Shape {
            parallelisms: _,
            size: _,
        } = self;
    }
}

impl Model for Shape {
    ghost use Rattle.std.specs.Prelude.{◌≡◌, ℕ, List, sum};
    ghost use Rattle.std.specs.Arc.{arc_slice_items};
    ghost use Rattle.ckpt_ids.specs.Shapes.{IsShape};

    ghost Value = { List ℕ };

    ghost view = { λ s. arc_slice_items s.parallelisms };

    ghost invariant = { λ s. IsShape (arc_slice_items s.parallelisms) × (s.size ≡ sum (arc_slice_items s.parallelisms)) };
}

impl Shape {
    /// A shape with these parallelisms, one for each vertex.
    ///
    /// Returns [`ShapeFault::BadShape`] exactly unless there are 1 to 256 parallelisms, each at
    /// least 1, at most 4096 in sum. Otherwise it returns [`ShapeFault::Memory`] if memory runs
    /// out.
    pub fn new(alloc: Global, list: &[u64]) -> Result<Shape, ShapeFault>
        ensures refused { (result ≡ Err ShapeFault.BadShape) ↔ (is_shape list.now ≡ false) }
        ensures value { IfOk result (λ shape. shape ≡ list.now) }
    {
        Shape::new_metered(&mut Meter::new(), alloc, list)
    }

    /// [`Shape::new`], which answers [`ShapeFault::Memory`] exactly if one more request for memory
    /// was refused.
    pub fn new_metered(meter: &mut Meter, alloc: Global, list: &[u64]) -> Result<Shape, ShapeFault>
        ensures bad_shape { (result ≡ Err ShapeFault.BadShape) ↔ (is_shape list.now ≡ false) }
        ensures value { IfOk result (λ shape. shape ≡ list.now) }
        ensures none { OnOk result (meter.new ≡ meter.old) }
        ensures refused { result ≡ Err ShapeFault.Memory → meter.new ≡ one_more meter.old }
    {
        if !is_shape(list) {
            return Err(ShapeFault::BadShape);
        }
        let mut parallelisms = list::with_capacity(meter, alloc, list.len())?;
        let mut size = 0;
        for parallelism in list {
            let parallelism = *parallelism as u32;
            parallelisms.push_reserved(parallelism);
            size += parallelism;
        }
        let parallelisms = shared::from_vec(meter, parallelisms)?;
        Ok(Shape { parallelisms, size })
    }

    /// How many subtasks the job has, 1 to 4096.
    pub fn size(&self) -> u32
        ensures value { result ≡ length (subtasks self.now) }
        ensures sum { result ≡ sum self.now }
        ensures limits { IsShape self.now }
    {
        self.size
    }

    /// Whether the job has this subtask.
    pub fn contains(&self, subtask: SubtaskId) -> bool
        ensures { result ≡ is_subtask self.now subtask }
    {
        let vertex = usize::from(subtask.vertex);
        let parallelisms = self.parallelisms.as_slice();
        vertex < parallelisms.len() && u32::from(subtask.index) < parallelisms[vertex]
    }

    /// The subtask at this place, in the order of subtasks, or `None` past the last.
    pub fn nth(&self, place: u32) -> Option<SubtaskId>
        ensures { result ≡ slice_get (subtasks self.now) place }
    {
        let mut left = place;
        for (vertex, parallelism) in self.parallelisms.as_slice().iter().enumerate() {
            if left < *parallelism {
                return Some(SubtaskId {
                    vertex: vertex as u16,
                    index: left as u16,
                });
            }
            left -= *parallelism;
        }
        None
    }

    /// How many vertices the job has, 1 to 256.
    pub fn vertices(&self) -> u32
        ensures value { result ≡ length self.now }
        ensures limits { IsShape self.now }
    {
        self.parallelisms.len() as u32
    }

    /// The parallelism of this vertex, or `None` past the last.
    pub fn parallelism(&self, vertex: u32) -> Option<u32>
        ensures { result ≡ slice_get self.now vertex }
    {
        self.as_slice().get(vertex as usize).copied()
    }

    /// The parallelisms, in the order of the vertices.
    pub fn as_slice(&self) -> &[u32]
        ensures { result.now ≡ self.now }
    {
        self.parallelisms.as_slice()
    }

    /// The parallelisms one after the other, in the order of the vertices.
    pub fn iter(&self) -> Iter<'_, u32>
        ensures rest { iter_rest result ≡ self.now }
        ensures runs { IterYieldsInOrder ℕ }
        ensures runs_back { IterYieldsInReverse ℕ }
    {
        self.as_slice().iter()
    }

    /// A copy of the shape. Fails only if memory runs out.
    pub fn copy(&self) -> Result<Shape, AllocError>
        ensures { IfOk result (λ shape. shape ≡ self.now) }
    {
        self.copy_metered(&mut Meter::new())
    }

    /// [`Shape::copy`], which fails exactly if one more request for memory was refused.
    pub fn copy_metered(&self, meter: &mut Meter) -> Result<Shape, AllocError>
        ensures value { IfOk result (λ shape. shape ≡ self.now) }
        ensures none { OnOk result (meter.new ≡ meter.old) }
        ensures refused { OnErr result (meter.new ≡ one_more meter.old) }
    {
        let Shape { parallelisms, size } = self;
        Ok(Shape {
            parallelisms: shared::clone(meter, parallelisms)?,
            size: *size,
        })
    }

    /// Does nothing. Its contract says that the parallelisms are within the limits of a shape.
    #[inline(always)]
    pub fn recall(&self)
        ensures { IsShape self.now }
    {
        let _size = self.size;
    }
}

impl<'a> IntoIterator for &'a Shape {
    ghost use Rattle.std.specs.Prelude.{◌≡◌, ℕ};
    ghost use Rattle.std.specs.Iterator.Adapters.{IterYieldsInOrder};
    ghost use Rattle.std.specs.Slice.Iter.{iter_rest};

    type Item = &'a u32;

    type IntoIter = Iter<'a, u32>;

    ghost into_iter_gives = { λ all it. (iter_rest it ≡ all.now) × IterYieldsInOrder ℕ };

    fn into_iter(self) -> Iter<'a, u32> {
        self.iter()
    }
}

impl PartialEq for Shape {
    ghost use Rattle.std.specs.Prelude.{nat_eq};
    ghost use Rattle.std.specs.Cmp.{nat_eq_equiv, partial_equiv_from_equiv};
    ghost use Rattle.std.specs.Cmp.Lexicographic.{pointwise, lists_per};

    ghost eq = { pointwise nat_eq };

    ghost laws = { lists_per (partial_equiv_from_equiv nat_eq_equiv) };

    fn eq(&self, other: &Shape) -> bool {
        self.parallelisms == other.parallelisms
    }
}

impl Eq for Shape {
    ghost use Rattle.std.specs.Cmp.{nat_eq_equiv};
    ghost use Rattle.std.specs.Cmp.Lexicographic.{lists_equiv};

    ghost laws = { lists_equiv nat_eq_equiv };
}

fn is_shape(list: &[u64]) -> bool
    ensures { result ≡ is_shape list.now }
{
    if list.is_empty() || list.len() > MOST_VERTICES {
        return false;
    }
    each_is_positive(list) && sum_is_at_most(list, MOST_SUBTASKS)
}

fn each_is_positive(list: &[u64]) -> bool
    ensures { result ≡ list_all (nat_le 1) list.now }
{
    list.iter().all(|number| 1 <= *number)
}

fn sum_is_at_most(list: &[u64], most: u64) -> bool
    ensures { result ≡ nat_le (sum list.now) most }
{
    let mut left = most;
    for number in list {
        if *number > left {
            return false;
        }
        left -= *number;
    }
    true
}
