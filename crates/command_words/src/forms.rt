//! The command that the words are.
ghost use Rattle.std.specs.Prelude.{◌≡◌, ◌≢◌, true, not, bytes_eq, Some, None, IfSome, MatchOption};
ghost use Rattle.command_words.specs.Command as spec;
ghost use Rattle.command_words.specs.Named.{named};

use crate::numbers::{digit_in, number_in};
use crate::word_lists::{WordList, word_list};

/// The most sections of a cascade.
const MOST_SECTIONS: u64 = 32;

/// The most samples that it is run over.
const MOST_SAMPLES: u64 = 100_000;

/// The most samples that run at once.
const MOST_STAGES: u8 = 4;

/// The most samples of a frame.
const MOST_PHASES: u8 = 8;

/// A command, with its files and numbers.
#[derive(Drop)]
pub enum Command<'a> {
    Compile {
        source: &'a str,
        datapath: &'a str,
        output: &'a str,
    },
    Schedule {
        source: &'a str,
        datapath: &'a str,
    },
    List {
        microcode: &'a str,
    },
    Sim {
        microcode: &'a str,
        samples: &'a str,
        output: &'a str,
    },
    Eval {
        source: &'a str,
        samples: &'a str,
        output: &'a str,
    },
    Run {
        source: &'a str,
        datapath: &'a str,
        samples: &'a str,
        output: &'a str,
    },
    Demo {
        sections: u64,
        samples: u64,
    },
    Stages {
        source: &'a str,
        datapath: &'a str,
        stages: u8,
    },
    Pipe {
        source: &'a str,
        datapath: &'a str,
        stages: u8,
        samples: &'a str,
        output: &'a str,
    },
    Frame {
        source: &'a str,
        datapath: &'a str,
        phases: u8,
        down: WordList,
        up: WordList,
        output: &'a str,
    },
    Net {
        net: &'a str,
        samples: &'a str,
        output: &'a str,
    },
}

/// Whether two names differ.
fn differ(a: &str, b: &str) -> bool
    ensures is { result ≡ not (bytes_eq a.now b.now) }
    ensures apart { result ≡ true → a.now ≢ b.now }
{
    a != b
}

/// The words of `compile`.
fn compile_form(words: &[String]) -> Option<Command<'_>>
    ensures form { MatchOption result (spec.compile_form (spec.names_of words.now) ≡ None)
        (λ found. spec.compile_form (spec.names_of words.now) ≡ Some (named found)) }
    ensures allowed { IfSome result (λ found. spec.IsAllowed (named found)) }
{
    match words {
        [source, datapath, output]
            if differ(output.as_str(), source.as_str())
                && differ(output.as_str(), datapath.as_str()) => {
            Some(Command::Compile {
                source: source.as_str(),
                datapath: datapath.as_str(),
                output: output.as_str(),
            })
        }
        _ => None,
    }
}

/// The words of `schedule`.
fn schedule_form(words: &[String]) -> Option<Command<'_>>
    ensures form { MatchOption result (spec.schedule_form (spec.names_of words.now) ≡ None)
        (λ found. spec.schedule_form (spec.names_of words.now) ≡ Some (named found)) }
    ensures allowed { IfSome result (λ found. spec.IsAllowed (named found)) }
{
    match words {
        [source, datapath] => Some(Command::Schedule {
            source: source.as_str(),
            datapath: datapath.as_str(),
        }),
        _ => None,
    }
}

/// The words of `list`.
fn list_form(words: &[String]) -> Option<Command<'_>>
    ensures form { MatchOption result (spec.list_form (spec.names_of words.now) ≡ None)
        (λ found. spec.list_form (spec.names_of words.now) ≡ Some (named found)) }
    ensures allowed { IfSome result (λ found. spec.IsAllowed (named found)) }
{
    match words {
        [microcode] => Some(Command::List {
            microcode: microcode.as_str(),
        }),
        _ => None,
    }
}

/// The words of `sim`.
fn sim_form(words: &[String]) -> Option<Command<'_>>
    ensures form { MatchOption result (spec.sim_form (spec.names_of words.now) ≡ None)
        (λ found. spec.sim_form (spec.names_of words.now) ≡ Some (named found)) }
    ensures allowed { IfSome result (λ found. spec.IsAllowed (named found)) }
{
    match words {
        [microcode, samples, output]
            if differ(output.as_str(), microcode.as_str())
                && differ(output.as_str(), samples.as_str()) => {
            Some(Command::Sim {
                microcode: microcode.as_str(),
                samples: samples.as_str(),
                output: output.as_str(),
            })
        }
        _ => None,
    }
}

/// The words of `eval`.
fn eval_form(words: &[String]) -> Option<Command<'_>>
    ensures form { MatchOption result (spec.eval_form (spec.names_of words.now) ≡ None)
        (λ found. spec.eval_form (spec.names_of words.now) ≡ Some (named found)) }
    ensures allowed { IfSome result (λ found. spec.IsAllowed (named found)) }
{
    match words {
        [source, samples, output]
            if differ(output.as_str(), source.as_str())
                && differ(output.as_str(), samples.as_str()) => Some(Command::Eval {
            source: source.as_str(),
            samples: samples.as_str(),
            output: output.as_str(),
        }),
        _ => None,
    }
}

/// The words of `run`.
fn run_form(words: &[String]) -> Option<Command<'_>>
    ensures form { MatchOption result (spec.run_form (spec.names_of words.now) ≡ None)
        (λ found. spec.run_form (spec.names_of words.now) ≡ Some (named found)) }
    ensures allowed { IfSome result (λ found. spec.IsAllowed (named found)) }
{
    match words {
        [source, datapath, samples, output]
            if differ(output.as_str(), source.as_str())
                && differ(output.as_str(), datapath.as_str())
                && differ(output.as_str(), samples.as_str()) => {
            Some(Command::Run {
                source: source.as_str(),
                datapath: datapath.as_str(),
                samples: samples.as_str(),
                output: output.as_str(),
            })
        }
        _ => None,
    }
}

/// The words of `demo`.
fn demo_form(words: &[String]) -> Option<Command<'_>>
    ensures form { MatchOption result (spec.demo_form (spec.names_of words.now) ≡ None)
        (λ found. spec.demo_form (spec.names_of words.now) ≡ Some (named found)) }
    ensures allowed { IfSome result (λ found. spec.IsAllowed (named found)) }
{
    match words {
        [sections, samples] => Some(Command::Demo {
            sections: number_in(sections.as_bytes(), MOST_SECTIONS)?,
            samples: number_in(samples.as_bytes(), MOST_SAMPLES)?,
        }),
        _ => None,
    }
}

/// The words of `stages`.
fn stages_form(words: &[String]) -> Option<Command<'_>>
    ensures form { MatchOption result (spec.stages_form (spec.names_of words.now) ≡ None)
        (λ found. spec.stages_form (spec.names_of words.now) ≡ Some (named found)) }
    ensures allowed { IfSome result (λ found. spec.IsAllowed (named found)) }
{
    match words {
        [source, datapath, stages] => Some(Command::Stages {
            source: source.as_str(),
            datapath: datapath.as_str(),
            stages: digit_in(stages.as_bytes(), MOST_STAGES)?,
        }),
        _ => None,
    }
}

/// The words of `pipe`.
fn pipe_form(words: &[String]) -> Option<Command<'_>>
    ensures form { MatchOption result (spec.pipe_form (spec.names_of words.now) ≡ None)
        (λ found. spec.pipe_form (spec.names_of words.now) ≡ Some (named found)) }
    ensures allowed { IfSome result (λ found. spec.IsAllowed (named found)) }
{
    match words {
        [source, datapath, stages, samples, output]
            if differ(output.as_str(), source.as_str())
                && differ(output.as_str(), datapath.as_str())
                && differ(output.as_str(), samples.as_str()) => {
            Some(Command::Pipe {
                source: source.as_str(),
                datapath: datapath.as_str(),
                stages: digit_in(stages.as_bytes(), MOST_STAGES)?,
                samples: samples.as_str(),
                output: output.as_str(),
            })
        }
        _ => None,
    }
}

/// The words of `frame`.
fn frame_form(words: &[String]) -> Option<Command<'_>>
    ensures form { MatchOption result (spec.frame_form (spec.names_of words.now) ≡ None)
        (λ found. spec.frame_form (spec.names_of words.now) ≡ Some (named found)) }
    ensures allowed { IfSome result (λ found. spec.IsAllowed (named found)) }
{
    match words {
        [source, datapath, phases, down, up, output]
            if differ(output.as_str(), source.as_str())
                && differ(output.as_str(), datapath.as_str()) => {
            Some(Command::Frame {
                source: source.as_str(),
                datapath: datapath.as_str(),
                phases: digit_in(phases.as_bytes(), MOST_PHASES)?,
                down: word_list(down.as_str())?,
                up: word_list(up.as_str())?,
                output: output.as_str(),
            })
        }
        _ => None,
    }
}

/// The words of `net`.
fn net_form(words: &[String]) -> Option<Command<'_>>
    ensures form { MatchOption result (spec.net_form (spec.names_of words.now) ≡ None)
        (λ found. spec.net_form (spec.names_of words.now) ≡ Some (named found)) }
    ensures allowed { IfSome result (λ found. spec.IsAllowed (named found)) }
{
    match words {
        [net, samples, output]
            if differ(output.as_str(), net.as_str()) && differ(output.as_str(), samples.as_str()) =>
            {
                Some(Command::Net {
                    net: net.as_str(),
                    samples: samples.as_str(),
                    output: output.as_str(),
                })
            }
        _ => None,
    }
}

/// The command that the words are, or nothing where they are none.
pub fn command_in(words: &[String]) -> Option<Command<'_>>
    ensures is { MatchOption result (spec.command_in (spec.names_of words.now) ≡ None)
        (λ found. spec.command_in (spec.names_of words.now) ≡ Some (named found)) }
    ensures allowed { IfSome result (λ found. spec.IsAllowed (named found)) }
{
    let (verb, words) = words.split_first()?;
    match verb.as_str() {
        "compile" => compile_form(words),
        "schedule" => schedule_form(words),
        "list" => list_form(words),
        "sim" => sim_form(words),
        "eval" => eval_form(words),
        "run" => run_form(words),
        "demo" => demo_form(words),
        "stages" => stages_form(words),
        "pipe" => pipe_form(words),
        "frame" => frame_form(words),
        "net" => net_form(words),
        _ => None,
    }
}
