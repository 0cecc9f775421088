//! Laws of texts and programs, each on a function that does nothing.
ghost use Rattle.std.specs.Prelude.{◌⊎◌, List, ℕ};
ghost use Rattle.sb_grammar.specs.declared.code.Code.{Code};
ghost use Rattle.sb_grammar.specs.declared.programs.Program.{Program};
ghost use Rattle.sb_grammar.specs.Printed.{printed};
ghost use Rattle.sb_grammar.specs.Program.{FirstFault, IsTextOf};

/// What is printed of a text's program is a text of the same program.
pub fn printed_programs_are_read()
    ensures { (p : Program) (bytes : List ℕ) (text : IsTextOf p bytes)
        → IsTextOf p (printed text.statements) }
{}

/// Each text is a program's, or has a first wrong token.
pub fn texts_are_judged()
    ensures { (bytes : List ℕ) → ((p : Program) × IsTextOf p bytes)
        ⊎ ((offset : ℕ) × (why : Code) × FirstFault bytes offset why) }
{}
