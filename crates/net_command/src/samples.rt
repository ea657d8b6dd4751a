//! SAMPLES: the rows of the net.
ghost use Rattle.std.specs.Prelude.{◌≡◌, ◌≤◌, [], ◌∷◌, length, IfOk, IfErr};
ghost use Rattle.std.specs.List.{All};
ghost use Rattle.desk_core.specs.Desk.{WhereSpecified, content_of};
ghost use Rattle.desk_core.specs.Whole.{IsReadThrough};
ghost use Rattle.net_command.specs.Net.{net_samples_limit};
ghost use Rattle.net_command.specs.Private.Reading.{HasRowList, AreBadRows, IsSamplesUnreadable, IsStreamRead};
ghost use Rattle.net_core.specs.Allowed.{IsNetFile};
ghost use Rattle.net_fit.specs.Joints.{HasNarrowInputs, net_channels as channels_for};
ghost use Rattle.sample_io.specs.Channels.{AreChannels};
ghost use Rattle.silc_files.specs.Endings.{IsAmong};
ghost use Rattle.silc_files.specs.Reading.{OnlyReads};

use desk_core::Desk;
use lists::{Bytes, List};
use net_core::NetFile;
use net_fit::{Ports, net_channels};
use proc_net::RowList;
use sample_io::Channel;
use silc_files::read_file;
use statuses::{SampleFault, Status};
use std::alloc::Global;
use whole_samples::{SamplesFault, read_rows};

/// The most bytes of SAMPLES.
const SAMPLES_LIMIT: u64 = 1 << 20;

/// The rows of the text, of so many words.
fn rows_in(alloc: Global, text: &Bytes, width: u8, channels: &[Channel]) -> Result<RowList, Status>
    requires channels { AreChannels channels.now }
    requires width { width ≡ length channels.now }
    requires within { length text.now ≤ net_samples_limit }
    ensures ok { IfOk result (HasRowList channels.now text.now) }
    ensures err { IfErr result (AreBadRows channels.now text.now) }
{
    match read_rows(alloc, text.as_slice(), channels) {
        Ok(words) => Ok(RowList { width, words }),
        Err(SamplesFault::Row(place)) => Err(Status::Samples(SampleFault::Row {
            line: place.line,
            at: place.at,
        })),
        Err(SamplesFault::Memory) => Err(Status::Memory),
    }
}

/// Reads SAMPLES.
fn read_samples<D: Desk>(
    alloc: Global,
    desk: &mut D,
    samples: &str,
    width: u8,
    channels: &[Channel],
) -> Result<RowList, Status>
    requires channels { AreChannels channels.now }
    requires width { width ≡ length channels.now }
    ensures reads { OnlyReads (IsAmong (samples.now ∷ [])) (D.view desk.old) (D.view desk.new) }
    ensures ok { IfOk result (IsStreamRead samples.now channels.now (D.view desk.old) (D.view desk.new)) }
    ensures err { IfErr result (IsSamplesUnreadable samples.now channels.now (D.view desk.old) (D.view desk.new)) }
{
    let too_long = Status::Samples(SampleFault::TooLong);
    let text = read_file(alloc, desk, samples, SAMPLES_LIMIT, too_long)?;
    rows_in(alloc, &text, width, channels)
}

/// Reads SAMPLES, for a net whose processors have these ports.
pub(crate) fn read_stream<D: Desk>(
    alloc: Global,
    desk: &mut D,
    samples: &str,
    file: &NetFile,
    ports: &[Ports],
) -> Result<RowList, Status>
    requires file { IsNetFile file.now }
    requires ports { length file.now.procs ≤ length ports.now }
    requires narrow { All HasNarrowInputs ports.now }
    ensures reads { OnlyReads (IsAmong (samples.now ∷ [])) (D.view desk.old) (D.view desk.new) }
    ensures ok { IfOk result (IsStreamRead samples.now (channels_for file.now.inputs file.now.procs ports.now)
        (D.view desk.old) (D.view desk.new)) }
    ensures err { IfErr result (IsSamplesUnreadable samples.now
        (channels_for file.now.inputs file.now.procs ports.now) (D.view desk.old) (D.view desk.new)) }
{
    let channels = net_channels(alloc, file, ports)?;
    read_samples(alloc, desk, samples, file.inputs, channels.as_slice())
}
