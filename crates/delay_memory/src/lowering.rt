//! The delay lines of a graph.

ghost use Rattle.std.specs.Prelude.{◌≡◌, ◌⊎◌, Ok, Err, IfOk, IfErr};
ghost use Rattle.datapath.specs.Allowed.{IsDatapath};
ghost use Rattle.signal_graph.specs.GraphRules.{IsGraph};
ghost use Rattle.plan_core.specs.Lowered.{IsLowered, IsLoweredOver};
ghost use Rattle.plan_core.specs.declared.delay_lines.Lowered as of_lowered;
ghost use Rattle.delay_memory.specs.Faults.{IsLineFault, IsLineFaultOver};
ghost use Rattle.delay_memory.specs.declared.fault.LineFault as of_fault;
ghost use Rattle.delay_memory.specs.declared.fault.LineFault.TheVariants.{Memory};

use crate::copies::graph_copy;
use crate::delays::delays_of;
use crate::fault::LineFault;
use crate::lines::lines_of;
use crate::nodes::{Layout, nodes_of};
use crate::numbers::numbers_of;
use crate::target::Target;
use datapath::Datapath;
use plan_core::Lowered;
use signal_graph::Graph;
use std::alloc::Global;

/// How many cells a line has beyond its longest delay where one sample is in flight at a time: one for the word of
/// this sample.
const SPARE_CELLS: u8 = 1;

/// Puts the delays of a graph that are longer than the target's hold into memory.
fn lower_to(alloc: Global, graph: Graph, target: &Target) -> Result<Lowered, LineFault>
    requires datapath { IsDatapath target.now.datapath.now }
    requires sound { IsGraph graph }
    ensures lowered { IfOk result (IsLoweredOver target.now.hold target.now.spare graph target.now.datapath.now) }
    ensures fault { IfErr result (λ fault. (fault ≡ Memory)
        ⊎ IsLineFaultOver target.now.hold target.now.spare graph target.now.datapath.now fault) }
    ensures found { (l : of_lowered.Lowered)
        → IsLoweredOver target.now.hold target.now.spare graph target.now.datapath.now l
        → (result ≡ Ok l) ⊎ (result ≡ Err Memory) }
    ensures refused { (fault : of_fault.LineFault)
        → IsLineFaultOver target.now.hold target.now.spare graph target.now.datapath.now fault
        → (result ≡ Err fault) ⊎ (result ≡ Err Memory) }
{
    let delays = delays_of(alloc, &graph, target.hold)?;
    let numbers = numbers_of(alloc, &delays)?;
    let lines = lines_of(alloc, target, &delays, &numbers)?;
    let layout = Layout {
        target,
        delays: &delays,
        numbers: &numbers,
        lines: &lines,
    };
    let nodes = nodes_of(alloc, graph, &layout)?;
    Ok(Lowered { nodes, lines })
}

/// Puts the delays of a graph that are longer than the datapath's hold into memory. Each node that is read with such
/// delays gets a line in the first ram with room, and is followed by new nodes; all nodes are numbered anew. Takes time
/// in proportion to nodes and edges, and for the delays of each node the logarithm of how many they are. Page
/// `docs/PLANNING.md`, "Delay lines".
///
/// # Errors
///
/// At the first node that needs a line and gets none: `NoRam` where the datapath has no ram; `LinesFull` where none has
/// so many cells left; `NoAcu` where no acu addresses the first that has. `Memory` where no memory is left.
pub fn lower_owned(alloc: Global, graph: Graph, datapath: &Datapath) -> Result<Lowered, LineFault>
    requires datapath { IsDatapath datapath.now }
    requires sound { IsGraph graph }
    ensures lowered { IfOk result (IsLowered graph datapath.now) }
    ensures fault { IfErr result (λ fault. (fault ≡ Memory) ⊎ IsLineFault graph datapath.now fault) }
    // The one lowered list is always found, unless memory runs out.
    ensures found { (l : of_lowered.Lowered) → IsLowered graph datapath.now l
        → (result ≡ Ok l) ⊎ (result ≡ Err Memory) }
    // So is the first node without a line.
    ensures refused { (fault : of_fault.LineFault) → IsLineFault graph datapath.now fault
        → (result ≡ Err fault) ⊎ (result ≡ Err Memory) }
{
    let target = Target {
        datapath,
        hold: datapath.hold,
        spare: SPARE_CELLS,
    };
    lower_to(alloc, graph, &target)
}

/// Puts the delays of a graph that are longer than this hold into memory, on a copy of the graph. Each line has so many
/// cells beyond its longest delay: as many as there are samples in flight at a time. Else it does what
/// `lower_owned` does.
///
/// # Errors
///
/// Those of `lower_owned`.
pub fn lower_over(
    alloc: Global,
    graph: &Graph,
    datapath: &Datapath,
    hold: u8,
    spare: u8,
) -> Result<Lowered, LineFault>
    requires datapath { IsDatapath datapath.now }
    requires sound { IsGraph graph.now }
    ensures lowered { IfOk result (IsLoweredOver hold spare graph.now datapath.now) }
    ensures fault { IfErr result (λ fault. (fault ≡ Memory) ⊎ IsLineFaultOver hold spare graph.now datapath.now fault) }
    // The one lowered list is always found, unless memory runs out.
    ensures found { (l : of_lowered.Lowered) → IsLoweredOver hold spare graph.now datapath.now l
        → (result ≡ Ok l) ⊎ (result ≡ Err Memory) }
    // So is the first node without a line.
    ensures refused { (fault : of_fault.LineFault) → IsLineFaultOver hold spare graph.now datapath.now fault
        → (result ≡ Err fault) ⊎ (result ≡ Err Memory) }
{
    let graph = graph_copy(alloc, graph)?;
    let target = Target {
        datapath,
        hold,
        spare,
    };
    lower_to(alloc, graph, &target)
}

/// Does what `lower_owned` does, on a copy of the graph.
///
/// # Errors
///
/// Those of `lower_owned`.
pub fn lower(alloc: Global, graph: &Graph, datapath: &Datapath) -> Result<Lowered, LineFault>
    requires datapath { IsDatapath datapath.now }
    requires sound { IsGraph graph.now }
    ensures lowered { IfOk result (IsLowered graph.now datapath.now) }
    ensures fault { IfErr result (λ fault. (fault ≡ Memory) ⊎ IsLineFault graph.now datapath.now fault) }
    // The one lowered list is always found, unless memory runs out.
    ensures found { (l : of_lowered.Lowered) → IsLowered graph.now datapath.now l
        → (result ≡ Ok l) ⊎ (result ≡ Err Memory) }
    // So is the first node without a line.
    ensures refused { (fault : of_fault.LineFault) → IsLineFault graph.now datapath.now fault
        → (result ≡ Err fault) ⊎ (result ≡ Err Memory) }
{
    lower_over(alloc, graph, datapath, datapath.hold, SPARE_CELLS)
}
