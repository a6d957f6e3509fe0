// The steps of each reading on a sheet of at most 32 stages.
#![tactic(auto)]

ghost use Rattle.definitions.specs.Sheet.{size};
ghost use Rattle.tables.specs.RowMajor.{ZeroTable};
ghost use Rattle.passes.specs.Weights.{weights_in, Enough};
ghost use Rattle.elimination.specs.Quotients.{QuotientTable};
ghost use Rattle.loading.specs.LoadedTable.{with_rates};
ghost use Rattle.readings.specs.Stepped.{Stepped};

use shape::sheets::{Sheet, Whole};

// Every stage: the sizes and leaving rates go through the elimination as they are, with the weights.
fn every_stage(sheet: Sheet<'_>, weights: &[f64], x: &mut [f64; 1024]) -> bool
    requires { Enough sheet.n weights.now × ZeroTable x.old }
    ensures { let n = sheet.entry.n in let sheet = sheet.entry.numbers.now in QuotientTable (weights_in weights.now) n (with_rates n sheet (size n sheet)) result x.new }
{
    let mut t = [0.0; 1024];
    loading::sizes(sheet, &mut t);
    loading::rates(sheet, &mut t);
    elimination::solve(sheet.n, weights, &mut t, x)
}

// Reading 1 with idle stages: the others go through the elimination in compact order, and the zeros of x stay
// in the idle rows and columns.
fn live_stages(sheet: Sheet<'_>, x: &mut [f64; 1024]) -> bool
    requires { ZeroTable x.old }
    ensures { Stepped 1 sheet.entry.n sheet.entry.numbers.now result x.new }
{
    let mut s = [0.0; 1024];
    let mut y = [0.0; 1024];
    let stages = live::pack(sheet, &mut s);
    let none = [0.0; 0];
    if !elimination::solve(stages.count, &none, &mut s, &mut y) {
        return false;
    }
    stages.unpack(&y, x);
    true
}

// Reading 2: the sizes and margins go through the steps for margins.
fn margins_table(sheet: Sheet<'_>, x: &mut [f64; 1024]) -> bool
    ensures { Stepped 2 sheet.entry.n sheet.entry.numbers.now result x.new }
{
    let mut t = [0.0; 1024];
    let mut d = [0.0; 32];
    loading::sizes(sheet, &mut t);
    loading::margins(sheet, &mut d);
    margins::solve_margins(sheet.n, &t, &d, x)
}

// The table of a sheet, in x; true if every step is in range. Only reading 1 has idle stages. x holds zeros before;
// afterwards it is left open outside n × n, and everywhere where a step is not in range.
pub fn steps(whole: Whole<'_>, x: &mut [f64; 1024]) -> bool
    requires { ZeroTable x.old }
    ensures { Stepped whole.entry.reading whole.entry.sheet.n whole.entry.sheet.numbers.now result x.new }
{
    let sheet = whole.sheet;
    if whole.reading == 2 {
        return margins_table(sheet, x);
    }
    if (whole.reading == 1) && idle::some_idle(sheet) {
        return live_stages(sheet, x);
    }
    every_stage(sheet, sheet.weights(), x)
}
