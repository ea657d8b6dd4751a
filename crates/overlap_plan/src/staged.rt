//! The graph that is scheduled over several stages, and what its stages ask of a node.

ghost use Rattle.std.specs.Prelude.{◌≡◌, ◌+◌, ◌*◌, ◌<◌, ◌≤◌, ◌↔◌, ◌⊎◌, ℕ, length, pos, IsTrue};
ghost use Rattle.fix_word.specs.declared.operation.Op.TheVariants as op;
ghost use Rattle.plan_core.specs.Heights.{latency_of};
ghost use Rattle.schedule_priority.specs.Parts.{nodes_of};
ghost use Rattle.list_schedule.specs.Placing.{slot_at, last_cycle};
ghost use Rattle.overlap_plan.specs.Lines.{op_at, IsOfLine, IsBehind, AreCells, address_of as address_in};
ghost use Rattle.overlap_plan.specs.Staged.{path_of, nodes_on, IsSoundStaged, IsLate, EndsInStages, EndsBeforeLoads};

use fix_word::Op;
use lists::List;
use plan_core::Slot;
use schedule_priority::Problem;

/// A graph whose nodes are bound to the units of a datapath, and over how many stages a sample is issued.
#[derive(Clone, Copy)]
pub struct Staged<'a> {
    /// The nodes on their units, and the datapath.
    pub problem: Problem<'a>,
    /// Over how many stages, 1 to 4.
    pub stages: u8,
}

/// Whether the operation is one of those that stand behind the store of a line.
fn is_of_line(op: Op) -> bool
    ensures { IsTrue result ↔ IsOfLine op }
{
    matches!(op, Op::Addr | Op::Load)
}

impl Staged<'_> {
    fn period(&self) -> u16
        requires { IsSoundStaged self.now }
        ensures period { result ≡ (path_of self.now).period }
        ensures some { 1 ≤ result }
        ensures most { result ≤ 4096 }
    {
        self.problem.datapath.period
    }

    /// The cycle at which the stages of a sample end.
    pub fn length(&self) -> u16
        requires { IsSoundStaged self.now }
        ensures length { result ≡ self.now.stages * (path_of self.now).period }
        ensures most { result ≤ last_cycle }
    {
        u16::from(self.stages) * self.period()
    }

    /// How many cycles node v takes on its unit.
    pub fn latency(&self, v: usize) -> u16
        requires staged { IsSoundStaged self.now }
        requires node { v < length (nodes_on self.now).lowered.nodes }
        ensures latency { result ≡ latency_of (path_of self.now) (nodes_on self.now) v }
        ensures some { 1 ≤ result }
        ensures most { result ≤ 8 }
    {
        u16::from(self.problem.latency(v))
    }

    /// The first cycle at which node v can be issued by its stage: an output ends in the last one.
    pub fn earliest(&self, v: usize) -> u16
        requires staged { IsSoundStaged self.now }
        requires node { v < length (nodes_on self.now).lowered.nodes }
        ensures late { (t : ℕ) → (result ≤ t) ↔ IsLate self.now.stages (path_of self.now) (nodes_on self.now) v t }
        ensures most { result ≤ last_cycle }
    {
        if self.problem.node(v).op != Op::Output {
            return 0;
        }
        let last = self.length() - self.period();
        (last + 1).saturating_sub(self.latency(v))
    }

    /// The cycle before which node v ends by its stage: all end in the stages, and an input is issued in the first one.
    fn latest(&self, v: usize) -> u16
        requires staged { IsSoundStaged self.now }
        requires node { v < length (nodes_on self.now).lowered.nodes }
        ensures { (end : ℕ) → (end ≤ result)
            ↔ EndsInStages self.now.stages (path_of self.now) (nodes_on self.now) v end }
    {
        if self.problem.node(v).op != Op::Input {
            return self.length();
        }
        self.length().min(self.period() + self.latency(v) - 1)
    }

    /// The cell that node v names, a store or a load.
    fn address(&self, v: usize) -> i64
        requires staged { IsSoundStaged self.now }
        requires node { v < length (nodes_on self.now).lowered.nodes }
        requires memory { (op_at (nodes_on self.now).lowered.nodes v ≡ op.Store)
            ⊎ (op_at (nodes_on self.now).lowered.nodes v ≡ op.Load) }
        ensures { result ≡ address_in (nodes_on self.now).lowered.nodes v }
    {
        let address = self.problem.node(v).edges[0].node;
        self.problem.node(address as usize).arg
    }

    /// The cycle, counted from the sample of which node v stores the word, in which load x behind it reads that word.
    fn read_cycle(&self, v: usize, x: usize, slots: &List<Slot>) -> u32
        requires staged { IsSoundStaged self.now }
        requires behind { IsBehind (nodes_on self.now).lowered.nodes v x }
        requires count { length slots.now ≡ length (nodes_on self.now).lowered.nodes }
        requires early { (x : ℕ) → (slot_at slots.now x).cycle ≤ last_cycle }
        ensures { (ago : ℕ) → AreCells (nodes_on self.now).lowered.nodes v x ago
            → result ≡ (slot_at slots.now x).cycle + ago * (path_of self.now).period }
    {
        let ago = (self.address(x) - self.address(v)) as u32;
        u32::from(slots[x].cycle) + ago * u32::from(self.period())
    }

    /// The cycle before which node v, a store, ends: this one, or that in which a load reads its word, if that
    /// is earlier.
    fn before_loads(&self, v: usize, slots: &List<Slot>, latest: u16) -> u16
        requires staged { IsSoundStaged self.now }
        requires store { op_at (nodes_on self.now).lowered.nodes v ≡ op.Store }
        requires node { v < length (nodes_on self.now).lowered.nodes }
        requires count { length slots.now ≡ length (nodes_on self.now).lowered.nodes }
        requires early { (x : ℕ) → (slot_at slots.now x).cycle ≤ last_cycle }
        ensures { (end : ℕ) → (end ≤ result) ↔ ((end ≤ latest)
            × EndsBeforeLoads self.now.stages (path_of self.now) (nodes_on self.now) slots.now v end) }
    {
        let mut end = latest;
        for x in v + 1..self.problem.count() {
            let op = self.problem.node(x).op;
            if !is_of_line(op) {
                return end;
            }
            if op == Op::Load {
                let read = self.read_cycle(v, x, slots);
                if read < u32::from(end) {
                    end = read as u16;
                }
            }
        }
        end
    }

    /// The cycle before which node v ends, by its stage and by the loads of what it stores, where these are the slots
    /// of the nodes that are placed.
    pub fn end(&self, v: usize, slots: &List<Slot>) -> u16
        requires staged { IsSoundStaged self.now }
        requires node { v < length (nodes_on self.now).lowered.nodes }
        requires count { length slots.now ≡ length (nodes_on self.now).lowered.nodes }
        requires early { (x : ℕ) → (slot_at slots.now x).cycle ≤ last_cycle }
        ensures { (end : ℕ) → (end ≤ result)
            ↔ (EndsInStages self.now.stages (path_of self.now) (nodes_on self.now) v end
            × EndsBeforeLoads self.now.stages (path_of self.now) (nodes_on self.now) slots.now v end) }
    {
        let latest = self.latest(v);
        if self.problem.node(v).op != Op::Store {
            return latest;
        }
        self.before_loads(v, slots, latest)
    }
}
