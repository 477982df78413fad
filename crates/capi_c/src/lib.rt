// The functions of `capi` under their names for C. include/bixtogan.h is the page for callers.
#![tactic(auto)]

ghost use Rattle.format.specs.Sheet.{outcome_of, outcome};
ghost use Rattle.format.specs.declared.Form.TheVariants.{Labelled};
ghost use Rattle.capi.specs.Interface.{CountTold, ReadingTold, ReadingsTold, ConfigurationTold, DrawingTold, TermTold, NodesTold, TidyTold, FragmentsTold, CycleTold, PlacingTold};

#[unsafe(no_mangle)]
pub extern "C" fn bixtogan_count(sheet: &[u8], readings: &mut u64) -> u8
    ensures { CountTold (outcome sheet.now) result readings.old readings.new }
{
    capi::bixtogan_count(sheet, readings)
}

#[unsafe(no_mangle)]
pub extern "C" fn bixtogan_reading(
    sheet: &[u8],
    place: &mut u64,
    out: &mut [u8],
    pairs: &mut u64,
) -> u8
    ensures { ReadingTold (outcome sheet.now) result place.old place.new out.old out.new
        pairs.old pairs.new }
{
    capi::bixtogan_reading(sheet, place, out, pairs)
}

#[unsafe(no_mangle)]
pub extern "C" fn bixtogan_readings(
    sheet: &[u8],
    place: &mut u64,
    out: &mut [u8],
    pairs: &mut u64,
) -> u8
    ensures { ReadingsTold (outcome sheet.now) result place.old place.new out.old out.new
        pairs.old pairs.new }
{
    capi::bixtogan_readings(sheet, place, out, pairs)
}

#[unsafe(no_mangle)]
pub extern "C" fn bixtogan_configuration(sheet: &[u8], out: &mut [u8], pairs: &mut u64) -> u8
    ensures { ConfigurationTold (outcome sheet.now) result out.old out.new pairs.old pairs.new }
{
    capi::bixtogan_configuration(sheet, out, pairs)
}

#[unsafe(no_mangle)]
pub extern "C" fn bixtogan_drawing(
    sheet: &[u8],
    number: u64,
    out: &mut [u8],
    written: &mut u64,
) -> u8
    ensures { DrawingTold (outcome sheet.now) result number out.old out.new written.old written.new }
{
    capi::bixtogan_drawing(sheet, number, out, written)
}

#[unsafe(no_mangle)]
pub extern "C" fn bixtogan_term(sheet: &[u8], number: u64, out: &mut [u8], written: &mut u64) -> u8
    ensures { TermTold (outcome_of Labelled sheet.now) result number out.old out.new written.old written.new }
{
    capi::bixtogan_term(sheet, number, out, written)
}

#[unsafe(no_mangle)]
pub extern "C" fn bixtogan_nodes(sheet: &[u8], nodes: &mut u64) -> u8
    ensures { NodesTold (outcome sheet.now) result nodes.old nodes.new }
{
    capi::bixtogan_nodes(sheet, nodes)
}

#[unsafe(no_mangle)]
pub extern "C" fn bixtogan_tidy(sheet: &[u8], out: &mut [u8], written: &mut u64) -> u8
    ensures { TidyTold (outcome sheet.now) result out.old out.new written.old written.new }
{
    capi::bixtogan_tidy(sheet, out, written)
}

#[unsafe(no_mangle)]
pub extern "C" fn bixtogan_labelled(sheet: &[u8], out: &mut [u8], written: &mut u64) -> u8
    ensures { TidyTold (outcome_of Labelled sheet.now) result out.old out.new written.old written.new }
{
    capi::bixtogan_labelled(sheet, out, written)
}

#[unsafe(no_mangle)]
pub extern "C" fn bixtogan_fragments(sheet: &[u8], out: &mut [u8], records: &mut u64) -> u8
    ensures { FragmentsTold (outcome sheet.now) result out.old out.new records.old records.new }
{
    capi::bixtogan_fragments(sheet, out, records)
}

#[unsafe(no_mangle)]
pub extern "C" fn bixtogan_check_cycle(sheet: &[u8], cycle: &[u8], yes: &mut u8) -> u8
    ensures { CycleTold (outcome sheet.now) result cycle.now yes.old yes.new }
{
    capi::bixtogan_check_cycle(sheet, cycle, yes)
}

#[unsafe(no_mangle)]
pub extern "C" fn bixtogan_check_placing(sheet: &[u8], placing: &[u8], answers: &mut u8) -> u8
    ensures { PlacingTold (outcome sheet.now) result placing.now answers.old answers.new }
{
    capi::bixtogan_check_placing(sheet, placing, answers)
}
