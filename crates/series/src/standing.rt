ghost use Rattle.series.specs.Standing.{SheetExact};

// After every series of calls the sheet holds exactly the rules that post took and those that try was
// told to keep and found a profile with, in call order. The function does nothing; its contract is the
// law.
pub fn sheet_exact()
    ensures { SheetExact }
{}
