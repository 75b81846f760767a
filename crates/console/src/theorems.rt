// An input leaves no choice of its records and output: each contract below is a theorem, so the check asks for its proof.
ghost use Rattle.console.specs.Records.{ParsedOnce};
ghost use Rattle.console.specs.Session.{ServedOnce};

// An input has at most one reading as records.
pub fn parsed_once_stands()
    ensures { ParsedOnce }
{}

// An input has at most one output.
pub fn served_once_stands()
    ensures { ServedOnce }
{}
