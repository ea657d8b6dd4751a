//! The images of a net's processors, and the types of their words.
ghost use Rattle.std.specs.Prelude.{◌≡◌, [], ◌∷◌, ◌++◌, IfOk, IfErr, OnOk};
ghost use Rattle.net_command.specs.Private.Prepared.{HasAccepted, HasSource, HasProcessor, AreProcessors, IsNoProcessor};
ghost use Rattle.plan_commands.specs.Planning.{IsNoSource, IsNoInputPlan};
ghost use Rattle.signal_graph.specs.Flat as flat_program;
ghost use Rattle.silage_syntax.specs.Tree.{view};

use crate::ports::ports_in;
use flow_graph::pruned_graph;
use front_end::{AcceptedFlat, accept_flat};
use lists::List;
use micro_image::Image;
use microcode_asm::assemble;
use net_fit::Ports;
use plan_commands::{Inputs, datapath_in, planned_over};
use proc_net::Images;
use signal_graph::Graph;
use silc_files::Input;
use source_faults::FrontFault;
use statuses::{Ending, Status};
use std::alloc::{AllocError, Global};

/// What a net takes of a source that has a program.
#[derive(Drop)]
struct Source {
    graph: Graph,
    ports: Ports,
}

/// A processor as it is planned.
#[derive(Drop)]
struct Processor {
    image: Image,
    ports: Ports,
}

/// The processors of a net as they are planned, in order.
#[derive(Drop)]
pub(crate) struct Processors {
    pub images: Images,
    pub ports: List<Ports>,
}

impl Processors {
    fn push(&mut self, processor: Processor) -> Result<(), AllocError>
        ensures images { OnOk result (self.new.images ≡ self.old.images ++ processor.image ∷ []) }
        ensures ports { OnOk result (self.new.ports ≡ self.old.ports ++ processor.ports ∷ []) }
    {
        self.images.push(processor.image)?;
        self.ports.push(processor.ports)?;
        Ok(())
    }
}

/// The program of the input, with its flat program.
fn accepted_in(alloc: Global, input: &Input) -> Result<AcceptedFlat, Ending>
    ensures ok { IfOk result (λ accepted.
        HasAccepted input.now (view accepted.program) (flat_program.view accepted.flat)) }
    ensures err { IfErr result (λ ending. IsNoSource input.now ending.status) }
{
    match input {
        Input::Whole(bytes) => Ok(accept_flat(alloc, bytes.as_slice())?),
        Input::TooLong => Err(Ending::from(Status::FrontEnd(FrontFault::TooLong))),
    }
}

/// The graph of the program of the input, and the types of its words.
fn source_in(alloc: Global, input: &Input) -> Result<Source, Ending>
    ensures ok { IfOk result (λ source. HasSource input.now source.graph source.ports) }
    ensures err { IfErr result (λ ending. IsNoSource input.now ending.status) }
{
    let accepted = accepted_in(alloc, input)?;
    let ports = ports_in(alloc, &accepted.flat)?;
    match pruned_graph(alloc, &accepted.flat) {
        Ok(graph) => Ok(Source { graph, ports }),
        Err(_) => Err(Ending::from(Status::Memory)),
    }
}

/// The image of the plan of the program of the one input, over the datapath of the other, and the types of its words.
fn processor_in(alloc: Global, inputs: &Inputs) -> Result<Processor, Ending>
    ensures ok { IfOk result (λ processor. HasProcessor inputs.now processor.image processor.ports) }
    ensures err { IfErr result (λ ending. IsNoInputPlan inputs.now.source inputs.now.datapath ending.status) }
{
    let source = source_in(alloc, &inputs.source)?;
    let path = datapath_in(alloc, &inputs.datapath)?;
    let planned = planned_over(alloc, source.graph, path)?;
    let image = assemble(alloc, &planned.plan, &planned.path)?;
    Ok(Processor {
        image,
        ports: source.ports,
    })
}

/// Each processor in order, or why the first that has no plan has none.
pub(crate) fn processors_in(alloc: Global, inputs: &[Inputs]) -> Result<Processors, Ending>
    ensures ok { IfOk result (AreProcessors inputs.now) }
    ensures err { IfErr result (λ ending. IsNoProcessor inputs.now ending.status) }
{
    let mut all = Processors {
        images: List::new(alloc),
        ports: List::new(alloc),
    };
    for one in inputs {
        all.push(processor_in(alloc, one)?)?;
    }
    Ok(all)
}
