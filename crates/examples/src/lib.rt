// Worked examples, shown of the definitions themselves by computation.
#![tactic(auto)]

ghost use Rattle.examples.specs.Table.{Examples};

// Every worked example stands.
pub fn examples_stand()
    ensures { Examples }
{}
