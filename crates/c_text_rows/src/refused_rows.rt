//! Texts that spell no tree, each with the line at which it is refused, computed. A function here does nothing, and its contract is the rows.

ghost use Rattle.std.specs.Prelude.{[], codes};
ghost use Rattle.c_tree.specs.CText.{RefusedLine};
ghost use Rattle.c_text_rows.specs.TextRows.{in_file};

/// Texts that are refused, with the line of the first token such that the tokens up to it begin no
/// well-formed file.
#[tactic(auto, using(crate::proofs::RefusalRows::empty_text, crate::proofs::RefusalRows::line_feeds_alone, crate::proofs::RefusalRows::no_include_line, crate::proofs::RefusalRows::include_beside_a_word, crate::proofs::RefusalRows::include_twice, crate::proofs::RefusalRows::open_comment, crate::proofs::RefusalRows::bad_byte, crate::proofs::RefusalRows::needless_zero, crate::proofs::RefusalRows::great_number, crate::proofs::RefusalRows::run_on_number, crate::proofs::RefusalRows::open_string, crate::proofs::RefusalRows::great_escape, crate::proofs::RefusalRows::one_bar, crate::proofs::RefusalRows::undeclared_name, crate::proofs::RefusalRows::used_before, crate::proofs::RefusalRows::missing_label, crate::proofs::RefusalRows::long_image, crate::proofs::RefusalRows::cut_body))]
pub fn refused_texts()
    ensures empty { RefusedLine [] 1 }
    ensures line_feeds { RefusedLine (codes "\n\n") 2 }
    ensures no_include_line { RefusedLine (codes "/* a\n */\nint f_(void) { }\n") 3 }
    ensures include_beside_a_word { RefusedLine (codes "\n#include \"f2c.h\" int f_(void) { }\n") 2 }
    ensures include_twice { RefusedLine (codes "#include \"f2c.h\"\n\n#include \"f2c.h\"\n") 3 }
    ensures open_comment { RefusedLine (in_file (codes "\n/* no end\n\n")) 3 }
    ensures bad_byte { RefusedLine (in_file (codes "int f_(void)\n{\n  return @ 0;\n}\n")) 4 }
    ensures needless_zero { RefusedLine (in_file (codes "integer b_[2]\n= { 1,\n\n02 };")) 5 }
    ensures great_number { RefusedLine (in_file (codes "static integer c__1 =\n2147483648;")) 3 }
    ensures digits_and_letters { RefusedLine (in_file (codes "static integer c__1 =\n12e;")) 3 }
    ensures open_string { RefusedLine (in_file (codes "char c_[9] =\n\"abc\n\";")) 3 }
    ensures great_escape { RefusedLine (in_file (codes "char c_[9] =\n\"\\400\";")) 3 }
    ensures one_bar { RefusedLine (in_file (codes "int f_(void) { return 1\n\n| 2; }")) 4 }
    ensures undeclared_name { RefusedLine (in_file (codes "int MAIN__(void)\n{\nfoo\n= 1; }")) 5 }
    ensures used_before { RefusedLine (in_file (codes "int MAIN__(void)\n{ f_\n(); }\nint f_(void) { }")) 4 }
    ensures missing_label { RefusedLine (in_file (codes "int MAIN__(void)\n{ goto L10;\n}\n")) 4 }
    ensures long_image { RefusedLine (in_file (codes "integer b_[1] = { 1\n, 2 };")) 3 }
    ensures cut_body { RefusedLine (in_file (codes "int MAIN__(void)\n{\n")) 3 }
{}
