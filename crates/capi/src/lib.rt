// The calls of `counter` for programs in C. The result of each is 0 or the number of the refusal; what the answer carries is put
// where the caller wants it. `capi_c` exports them; include/bixtogan.h is the page for callers.
#![tactic(auto)]

ghost use Rattle.format.specs.Sheet.{outcome_of, outcome};
ghost use Rattle.format.specs.declared.Form.TheVariants.{Labelled};
ghost use Rattle.capi.specs.Interface.{CountTold, ReadingTold, ReadingsTold, ConfigurationTold, DrawingTold, TermTold, NodesTold, TidyTold, FragmentsTold, CycleTold, PlacingTold};

use capi_put::{put, put_next, put_placed};
use counter::Place;

pub fn bixtogan_count(sheet: &[u8], readings: &mut u64) -> u8
    ensures { CountTold (outcome sheet.now) result readings.old readings.new }
{
    put(counter::count(sheet), readings)
}

pub fn bixtogan_reading(sheet: &[u8], place: &mut u64, out: &mut [u8], pairs: &mut u64) -> u8
    ensures { ReadingTold (outcome sheet.now) result place.old place.new out.old out.new
        pairs.old pairs.new }
{
    let from = Place {
        number: *place as usize,
    };
    put_next(from.next(sheet, out), place, pairs)
}

pub fn bixtogan_readings(sheet: &[u8], place: &mut u64, out: &mut [u8], pairs: &mut u64) -> u8
    ensures { ReadingsTold (outcome sheet.now) result place.old place.new out.old out.new
        pairs.old pairs.new }
{
    let from = Place {
        number: *place as usize,
    };
    put_next(from.fill(sheet, out), place, pairs)
}

pub fn bixtogan_configuration(sheet: &[u8], out: &mut [u8], pairs: &mut u64) -> u8
    ensures { ConfigurationTold (outcome sheet.now) result out.old out.new pairs.old pairs.new }
{
    put_placed(counter::configuration(sheet, out), pairs)
}

pub fn bixtogan_drawing(sheet: &[u8], number: u64, out: &mut [u8], written: &mut u64) -> u8
    ensures { DrawingTold (outcome sheet.now) result number out.old out.new written.old written.new }
{
    put(counter::drawing(sheet, number as usize, out), written)
}

pub fn bixtogan_term(sheet: &[u8], number: u64, out: &mut [u8], written: &mut u64) -> u8
    ensures { TermTold (outcome_of Labelled sheet.now) result number out.old out.new written.old written.new }
{
    put(counter::term(sheet, number as usize, out), written)
}

pub fn bixtogan_nodes(sheet: &[u8], nodes: &mut u64) -> u8
    ensures { NodesTold (outcome sheet.now) result nodes.old nodes.new }
{
    put(counter::nodes(sheet), nodes)
}

pub fn bixtogan_tidy(sheet: &[u8], out: &mut [u8], written: &mut u64) -> u8
    ensures { TidyTold (outcome sheet.now) result out.old out.new written.old written.new }
{
    put(counter::tidy(sheet, out), written)
}

pub fn bixtogan_labelled(sheet: &[u8], out: &mut [u8], written: &mut u64) -> u8
    ensures { TidyTold (outcome_of Labelled sheet.now) result out.old out.new written.old written.new }
{
    put(counter::labelled(sheet, out), written)
}

pub fn bixtogan_fragments(sheet: &[u8], out: &mut [u8], records: &mut u64) -> u8
    ensures { FragmentsTold (outcome sheet.now) result out.old out.new records.old records.new }
{
    put(counter::fragment_table(sheet, out), records)
}

pub fn bixtogan_check_cycle(sheet: &[u8], cycle: &[u8], yes: &mut u8) -> u8
    ensures { CycleTold (outcome sheet.now) result cycle.now yes.old yes.new }
{
    put(counter::check_cycle(sheet, cycle), yes)
}

pub fn bixtogan_check_placing(sheet: &[u8], placing: &[u8], answers: &mut u8) -> u8
    ensures { PlacingTold (outcome sheet.now) result placing.now answers.old answers.new }
{
    put(counter::check_placing(sheet, placing), answers)
}
