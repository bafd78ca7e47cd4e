// The calls for C and Rust that convert a capture from one form to the other. Each answers a refusal number, 0 where it was not refused, and always tells how many
// bytes were written and the number of the record that a refusal names. Document 02, section 5.
#![tactic(auto)]

ghost use Rattle.std.specs.Prelude.{◌≡◌};
ghost use Rattle.conversion_door.specs.Calls.{converted_through, convert_told};
ghost use Rattle.replay_capture.specs.declared.Form.TheVariants.{New, Old};

use replay_capture::Form;

// Inlined into both calls, each of which knows its form: one body for the two takes up to half as long again (docs/LOOK-BACK.md).
#[inline(always)]
fn convert(from: Form, capture: &[u8], output: &mut [u8], told: &mut [u64; 2]) -> u32
    ensures { convert_told result told.new output.new ≡ converted_through from capture.now output.old }
{
    let converted = conversion::convert(from, capture, output);
    let written = conversion::bytes_written(converted);
    let named = conversion::record_named(converted);
    *told = [written as u64, named as u64];
    conversion::number(converted)
}

// An old capture into the new form.
pub fn zc_to_new(capture: &[u8], output: &mut [u8], told: &mut [u64; 2]) -> u32
    ensures { convert_told result told.new output.new ≡ converted_through Old capture.now output.old }
{
    convert(Form::Old, capture, output, told)
}

// A new capture into the old form.
pub fn zc_to_old(capture: &[u8], output: &mut [u8], told: &mut [u64; 2]) -> u32
    ensures { convert_told result told.new output.new ≡ converted_through New capture.now output.old }
{
    convert(Form::New, capture, output, told)
}
