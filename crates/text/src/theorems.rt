// What judging means: each contract below is a theorem, so the check asks for its proof.
ghost use Rattle.text.specs.Accepted.{AcceptedExactly, OneMeaning};
ghost use Rattle.text.specs.Examples.{WorkedTexts};
ghost use Rattle.text.specs.Verdicts.{OneAnswer};

// Judging has one answer.
pub fn one_answer_stands()
    ensures { OneAnswer }
{}

// The good texts are those of the grammar whose clauses keep the limits.
pub fn accepted_stands()
    ensures { AcceptedExactly }
{}

// The bytes of a text fix its clauses.
pub fn one_meaning_stands()
    ensures { OneMeaning }
{}

// Some texts are judged as by hand.
pub fn worked_texts_stand()
    ensures { WorkedTexts }
{}
