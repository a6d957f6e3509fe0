// The stages of a sheet of reading 1 that take part in its steps, as a system of their own (document 02, U3).
#![tactic(auto)]

ghost use Rattle.definitions.specs.Sheet.{takes_part};
ghost use Rattle.compact.specs.Listing.{MaskOf};
ghost use Rattle.live.specs.LivePacked.{LivePacked};

use compact::Stages;
use shape::sheets::Sheet;

// Marks the stages that are not idle; the places past the last stage keep what they hold.
fn live_stages(sheet: Sheet<'_>, live: &mut [bool; 32])
    ensures { MaskOf (takes_part 1 sheet.entry.n sheet.entry.numbers.now) sheet.entry.n live.new }
{
    for i in 0..sheet.n {
        live[i] = !idle::is_idle(i, sheet);
    }
}

// The sizes and leaving rates of the stages that are not idle, packed in s, and the list of these stages; other places
// of s are left open.
pub fn pack(sheet: Sheet<'_>, s: &mut [f64; 1024]) -> Stages
    ensures { LivePacked sheet.entry.n sheet.entry.numbers.now result.count result.places s.new }
{
    let mut stages = Stages::none();
    let mut live = [false; 32];
    let mut t = [0.0; 1024];
    live_stages(sheet, &mut live);
    stages.list(sheet.n, &live);
    loading::sizes(sheet, &mut t);
    loading::rates(sheet, &mut t);
    stages.pack(&t, s);
    stages
}
