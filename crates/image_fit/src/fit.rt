//! Whether an image is one of a datapath.

ghost use Rattle.std.specs.Prelude.{◌≡◌, ◌≤◌, length, OnOk};
ghost use Rattle.std.specs.List.{All};
ghost use Rattle.datapath.specs.Allowed.{IsDatapath};
ghost use Rattle.image_fit.specs.Fits.{IsImageOn};

use crate::starts::check_starts;
use crate::unfit::Unfit;
use crate::units::check_units;
use crate::words::check_words;
use datapath::Datapath;
use micro_image::Image;

fn check_inputs(inputs: &[u8], bits: u8) -> Result<(), Unfit>
    ensures { OnOk result (All (λ width. width ≤ bits) inputs.now) }
{
    for (input, width) in inputs.iter().enumerate() {
        if *width > bits {
            return Err(Unfit::Input {
                input,
                has: *width,
                wants: bits,
            });
        }
    }
    Ok(())
}

fn check_counts(image: &Image, path: &Datapath) -> Result<(), Unfit>
    ensures period { OnOk result (image.now.period ≡ path.now.period) }
    ensures buses { OnOk result (image.now.buses ≡ length path.now.buses) }
{
    if image.period != path.period {
        return Err(Unfit::Period {
            has: image.period,
            wants: path.period,
        });
    }
    let wants = path.buses.len();
    if usize::from(image.buses) != wants {
        return Err(Unfit::Buses {
            has: image.buses,
            wants,
        });
    }
    Ok(())
}

/// Checks that an image is one of a datapath: of its period, its buses and its units with as many registers and cells,
/// with no word that is wider, and with no bus drive or register-file write that the buses don't have.
/// Page `docs/VALIDATION.md`.
pub fn check_fit(image: &Image, path: &Datapath) -> Result<(), Unfit>
    requires { IsDatapath path.now }
    ensures fits { OnOk result (IsImageOn path.now image.now) }
{
    check_counts(image, path)?;
    check_inputs(&image.inputs, path.word)?;
    check_units(image, path)?;
    check_starts(&image.units, path.word)?;
    check_words(path, &image.words)?;
    Ok(())
}
