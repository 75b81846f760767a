// The theorems about sheets, choices and pebblings: each contract below is one, so the check asks for its proof.
ghost use Rattle.horn.specs.Bans.{LowestFound};
ghost use Rattle.horn.specs.Claims.{Forced, Closed, Contradicted, Entailed, Levelled, Decided, Ranked, Explained, Least, Growing, BansAddNothing};
ghost use Rattle.horn.specs.Examples.{Worked};
ghost use Rattle.horn.specs.Explanations.{Explaining};
ghost use Rattle.horn.specs.Graph.{GraphInForce, GraphBroken, GraphContradicted, GraphRanked};
ghost use Rattle.horn.specs.Lawfulness.{LawfulTested, SatisfiableTested};

// A choice that satisfies a sheet holds what is in force.
pub fn forced_stands()
    ensures { Forced }
{}

// The conditions in force satisfy all facts and rules.
pub fn closed_stands()
    ensures { Closed }
{}

// They are the least set that does.
pub fn least_stands()
    ensures { Least }
{}

// No choice satisfies a sheet exactly when a ban is broken.
pub fn contradicted_stands()
    ensures { Contradicted }
{}

// Where some choice satisfies a sheet, in force is exactly held by every such choice.
pub fn entailed_stands()
    ensures { Entailed }
{}

// Where no choice satisfies a sheet, the computed ban is the lowest broken one.
pub fn lowest_found_stands()
    ensures { LowestFound }
{}

// A condition is in force exactly when the graph of the sheet pebbles its node from true.
pub fn graph_in_force_stands()
    ensures { GraphInForce }
{}

// Some ban is broken exactly when the graph pebbles false.
pub fn graph_broken_stands()
    ensures { GraphBroken }
{}

// No choice satisfies a sheet exactly when the graph pebbles false.
pub fn graph_contradicted_stands()
    ensures { GraphContradicted }
{}

// The rank is the length of the shortest pebblings in the graph.
pub fn graph_ranked_stands()
    ensures { GraphRanked }
{}

// Level k holds the conditions with a pebbling of length at most k.
pub fn levelled_stands()
    ensures { Levelled }
{}

// In force, as computed, is having a pebbling.
pub fn decided_stands()
    ensures { Decided }
{}

// The rank of a condition in force is the length of its shortest pebblings.
pub fn ranked_stands()
    ensures { Ranked }
{}

// The explanation of a condition in force is a shortest pebbling of it.
pub fn explained_stands()
    ensures { Explained }
{}

// It is the only list that fits the definition of an explanation.
pub fn explaining_stands()
    ensures { Explaining }
{}

// The test for lawful sheets decides it.
pub fn lawful_tested_stands()
    ensures { LawfulTested }
{}

// Some choice satisfies a sheet exactly when the conditions in force do.
pub fn satisfiable_tested_stands()
    ensures { SatisfiableTested }
{}

// The worked examples come out as computed by hand.
pub fn worked_stands()
    ensures { Worked }
{}

// Clauses that are added keep every pebbling.
pub fn growing_stands()
    ensures { Growing }
{}

// Bans that are added put nothing in force.
pub fn bans_add_nothing_stands()
    ensures { BansAddNothing }
{}
