// What the answers of a round mean: each contract below is a theorem, so the check asks for its proof.
ghost use Rattle.round.specs.Determined.{Determined, RunsDetermined};
ghost use Rattle.round.specs.Exact.{OpeningExact, ReportsExact};
ghost use Rattle.round.specs.Examples.{WorkedRun};
ghost use Rattle.round.specs.Sound.{FilingsHeld, PromiseKept, Satisfied};

// Each call has exactly one answer, and one result.
pub fn determined_stands()
    ensures { Determined }
{}

// So has each call by what stands, and each list of calls.
pub fn runs_determined_stands()
    ensures { RunsDetermined }
{}

// Some choice satisfies the clauses of every round.
pub fn satisfied_stands()
    ensures { Satisfied }
{}

// An opening is turned back as contradictory exactly when no choice satisfies the sheet, and names the lowest broken ban.
pub fn opening_exact_stands()
    ensures { OpeningExact }
{}

// Asks and rolls report a condition in force exactly when every satisfying choice holds it.
pub fn reports_exact_stands()
    ensures { ReportsExact }
{}

// A round holds the clauses of the sheet that it was opened on, then its filings.
pub fn filings_held_stands()
    ensures { FilingsHeld }
{}

// Every round keeps the promise of the sheet that it was opened on.
pub fn promise_kept_stands()
    ensures { PromiseKept }
{}

// A worked run.
pub fn worked_run_stands()
    ensures { WorkedRun }
{}
