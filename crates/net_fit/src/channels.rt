//! The ranges of the words of a net's row.
ghost use Rattle.std.specs.Prelude.{◌≡◌, ◌≤◌, length, IfOk};
ghost use Rattle.std.specs.List.{All};
ghost use Rattle.net_fit.specs.Joints as joint;
ghost use Rattle.net_fit.specs.Joints.{HasNarrowInputs};
ghost use Rattle.sample_io.specs.Channels.{IsChannel};

use crate::ports::Ports;
use crate::wires::net_type;
use fix_word::SigType;
use lists::List;
use net_core::NetFile;
use sample_io::Channel;
use std::alloc::{AllocError, Global};

/// The bits of the type's words in a sample file; 0 for `bool`.
fn word_width(ty: Option<SigType>) -> u8
    ensures { result ≡ joint.word_width ty }
{
    match ty {
        Some(SigType::Fix(ty)) => ty.shape.w,
        _ => 0,
    }
}

/// The channel of each word of the net's row: that of the first processor word that it feeds.
pub fn net_channels(
    alloc: Global,
    net: &NetFile,
    ports: &[Ports],
) -> Result<List<Channel>, AllocError>
    requires ports { length net.now.procs ≤ length ports.now }
    requires narrow { All HasNarrowInputs ports.now }
    ensures channels { IfOk result (λ channels.
        channels ≡ joint.net_channels net.now.inputs net.now.procs ports.now) }
    ensures each { IfOk result (λ channels. All IsChannel channels) }
{
    let mut channels = List::new(alloc);
    for word in 0..net.inputs {
        let ty = net_type(word, net.procs.as_slice(), ports);
        channels.push(Channel::of(word_width(ty)))?;
    }
    Ok(channels)
}
