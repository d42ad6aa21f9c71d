// Reads a dossier on standard input, folds it, and prints its rules.
#![tactic(auto)]

fn main() {
    front::whole();
}
