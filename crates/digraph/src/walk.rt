//! The strongly connected components of the arc graph: vertices that reach each other by arcs.

ghost use Rattle.std.specs.Prelude.{◌≡◌, ◌<◌, ◌≤◌, ◌^◌, ◌↔◌, [], None, Some, length, slice_get, Contains, IsTrue, IfOk, OnOk, IfSome, IfNone};
ghost use Rattle.std.specs.List.{AllPairs};
ghost use Rattle.digraph.specs.Arcs.{IsWithin};
ghost use Rattle.digraph.specs.Private.Walk.{state_of, start, IsWalk, IsMark, IsBefore, IsLast, LastBeginsAfter, IsDue, IsNext, KeepsGroups, ClosesAll, WalksOn, Visits, work_left, AreComponents, component_of};

use lists::List;
use std::alloc::{AllocError, AllocFailed, Global};

/// How far the walk has come with a vertex.
#[derive(Clone, Copy)]
pub(crate) enum Mark {
    /// The walk has not met it.
    New,
    /// The walk has met it, and not all that it reaches. It has this position among such vertices.
    Active(usize),
    /// The walk has met all that it reaches. The vertices of a component have one number.
    Closed(usize),
}

impl Mark {
    fn is_new(self) -> bool
        ensures { IsTrue result ↔ (self ≡ Mark.New) }
    {
        matches!(self, Mark::New)
    }

    /// The number of the component, once the vertex is closed.
    pub(crate) fn component(self) -> Option<usize>
        ensures { result ≡ component_of self }
    {
        match self {
            Mark::New | Mark::Active(_) => None,
            Mark::Closed(component) => Some(component),
        }
    }
}

/// Active vertices that reach each other, with their arcs: those from these positions up to the next group.
#[derive(Clone, Copy)]
struct Group {
    active: usize,
    pending: usize,
}

/// A depth-first walk along arcs.
#[derive(Drop)]
struct Walk {
    marks: Vec<Mark>,
    /// Vertices in the order in which the walk met them. Each reaches those after it.
    active: Vec<u32>,
    /// The heads of their arcs that the walk has not followed.
    pending: Vec<u32>,
    groups: Vec<Group>,
    /// How many vertices are closed.
    closed: usize,
}

/// Whether the last group begins after this position.
fn begins_after(groups: &[Group], position: usize) -> bool
    ensures { IsTrue result ↔ LastBeginsAfter groups.now position }
{
    match groups.last() {
        Some(group) => position < group.active,
        None => false,
    }
}

/// Joins the last groups with the one that has this position.
fn join(groups: &mut Vec<Group>, position: usize)
    requires { AllPairs IsBefore groups.old.items }
    ensures { KeepsGroups groups.old.items position groups.new.items }
{
    while begins_after(groups, position) {
        groups.pop();
    }
}

/// Closes these vertices, which are a component.
fn close_all(marks: &mut [Mark], vertices: &[u32], component: usize)
    requires { (f : _) → Contains vertices.now f → f < length marks.old }
    ensures { ClosesAll marks.old vertices.now component marks.new }
{
    for vertex in vertices {
        marks[*vertex as usize] = Mark::Closed(component);
    }
}

impl Walk {
    /// A walk that has met no vertex.
    fn new(alloc: Global, vertices: usize) -> Result<Walk, AllocError>
        ensures { IfOk result (λ walk. state_of walk ≡ start vertices) }
    {
        Ok(Walk {
            marks: vec![in alloc; Mark::New; vertices]?,
            active: Vec::new(alloc),
            pending: Vec::new(alloc),
            groups: Vec::new(alloc),
            closed: 0,
        })
    }

    /// Meets a vertex: a group of its own, with all its arcs.
    fn meet(&mut self, arcs: &[List<u32>], vertex: u32) -> Result<(), AllocError>
        requires walk { IsWalk arcs.now (Some vertex) (state_of self.old) }
        requires due { IsDue arcs.now (state_of self.old) vertex }
        requires new { IsMark self.old.marks.items vertex Mark.New }
        ensures walk { OnOk result (WalksOn arcs.now (state_of self.old) (state_of self.new)) }
        ensures met { OnOk result (¬ IsMark self.new.marks.items vertex Mark.New) }
    {
        let group = Group {
            active: self.active.len(),
            pending: self.pending.len(),
        };
        self.groups.push(group)?;
        self.marks[vertex as usize] = Mark::Active(self.active.len());
        self.active.push(vertex)?;
        self.pending.extend_from_slice(&arcs[vertex as usize])
    }

    /// Follows an arc of the last group.
    fn follow(&mut self, arcs: &[List<u32>], head: u32) -> Result<(), AllocError>
        requires walk { IsWalk arcs.now (Some head) (state_of self.old) }
        requires due { IsDue arcs.now (state_of self.old) head }
        requires within { head < length arcs.now }
        ensures { OnOk result (WalksOn arcs.now (state_of self.old) (state_of self.new)) }
    {
        match self.marks[head as usize] {
            Mark::New => self.meet(arcs, head),
            Mark::Active(position) => {
                join(&mut self.groups, position);
                Ok(())
            }
            Mark::Closed(_) => Ok(()),
        }
    }

    /// Closes the last group, whose arcs are all followed.
    fn close(&mut self, arcs: &[List<u32>], group: Group)
        requires walk { IsWalk arcs.now None (state_of self.old) }
        requires last { IsLast self.old.groups.items group }
        requires inside { group.active ≤ length self.old.active.items }
        requires followed { length self.old.pending.items ≡ group.pending }
        ensures walk { WalksOn arcs.now (state_of self.old) (state_of self.new) }
        ensures less { work_left arcs.now (state_of self.new) < work_left arcs.now (state_of self.old) }
    {
        close_all(&mut self.marks, &self.active[group.active..], self.closed);
        self.closed += self.active.len() - group.active;
        self.active.truncate(group.active);
        self.groups.pop();
    }

    /// The head of an arc of the last group, which is followed next.
    fn next_head(&mut self, arcs: &[List<u32>], group: Group) -> Option<u32>
        requires walk { IsWalk arcs.now None (state_of self.old) }
        requires last { IsLast self.old.groups.items group }
        ensures some { IfSome result (λ head. IsNext arcs.now (state_of self.old) head (state_of self.new)) }
        ensures none { IfNone result (state_of self.new ≡ state_of self.old) }
        ensures followed { IfNone result (length self.old.pending.items ≡ group.pending) }
    {
        if self.pending.len() == group.pending {
            return None;
        }
        self.pending.pop()
    }

    /// Goes on from the last group.
    fn step(&mut self, arcs: &[List<u32>], group: Group) -> Result<(), AllocError>
        requires walk { IsWalk arcs.now None (state_of self.old) }
        requires last { IsLast self.old.groups.items group }
        ensures walk { OnOk result (WalksOn arcs.now (state_of self.old) (state_of self.new)) }
        ensures less { OnOk result (work_left arcs.now (state_of self.new) < work_left arcs.now (state_of self.old)) }
    {
        match self.next_head(arcs, group) {
            Some(head) => self.follow(arcs, head),
            None => {
                self.close(arcs, group);
                Ok(())
            }
        }
    }

    /// Meets all that a vertex reaches, and closes it.
    fn visit(&mut self, arcs: &[List<u32>], vertex: u32) -> Result<(), AllocError>
        requires walk { IsWalk arcs.now None (state_of self.old) }
        requires idle { self.old.groups.items ≡ [] }
        requires within { vertex < length arcs.now }
        ensures { OnOk result (Visits arcs.now (state_of self.old) vertex (state_of self.new)) }
    {
        if self.marks[vertex as usize].is_new() {
            self.meet(arcs, vertex)?;
        }
        while let Some(group) = self.groups.last().copied() {
            self.step(arcs, group)?;
        }
        Ok(())
    }
}

/// The marks of all vertices, each with the number of its component.
pub(crate) fn components(alloc: Global, arcs: &[List<u32>]) -> Result<Vec<Mark>, AllocError>
    requires few { length arcs.now < 2 ^ 32 }
    requires within { IsWithin arcs.now }
    ensures { IfOk result (λ marks. AreComponents arcs.now marks.items) }
{
    let mut walk = Walk::new(alloc, arcs.len())?;
    for vertex in 0..arcs.len() as u32 {
        walk.visit(arcs, vertex)?;
    }
    Ok(walk.marks)
}
