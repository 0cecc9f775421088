//! Laws of the grammar, each on a function that does nothing.
ghost use Rattle.std.specs.Prelude.{◌≡◌, ℕ, List};
ghost use Rattle.sb_tokens.specs.Token.{Token};
ghost use Rattle.sb_grammar.specs.declared.code.Code.{Code};
ghost use Rattle.sb_grammar.specs.declared.programs.Program.{Program};
ghost use Rattle.sb_grammar.specs.Program.{FirstFault, IsProgram, IsTextOf, joined};

/// A list of tokens is at most one program's.
pub fn programs_are_unique()
    ensures { (p q : Program) (ps qs : List (List Token)) → IsProgram p ps → IsProgram q qs
        → joined ps ≡ joined qs → p ≡ q }
{}

/// A text has at most one first wrong token, for one reason, and a text of a program has none.
pub fn faults_are_unique()
    ensures one { (bytes : List ℕ) (o o' : ℕ) (c c' : Code) → FirstFault bytes o c
        → FirstFault bytes o' c' → (o ≡ o') × (c ≡ c') }
    ensures none { (p : Program) (bytes : List ℕ) (o : ℕ) (c : Code) → IsTextOf p bytes
        → FirstFault bytes o c → ⊥ }
{}
