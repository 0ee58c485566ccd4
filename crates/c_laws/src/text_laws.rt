//! Laws of texts of the subset, and texts that are refused, with their lines (C89, 3.1, 3.5.7 and
//! 3.6.1). A function here does nothing, and its contract is the laws or rows.
#![tactic(auto, unfolding(c_tree::specs::Opened::trees_opened))]

ghost use Rattle.std.specs.Prelude.{◌≡◌, ◌++◌, ◌+◌, ℕ, Bool, List, [], ◌∷◌, true, false, codes, pos, Some, None, take};
ghost use Rattle.std.specs.Char.{is_ascii_digit};
ghost use Rattle.std.specs.List.{list_all};
ghost use Rattle.std.specs.Str.Parse.{digits_value};
ghost use Rattle.c_tree.specs.declared.types.ListType.TheVariants as list;
ghost use Rattle.c_tree.specs.declared.statement.CStmt.TheVariants as stmt;
ghost use Rattle.c_tree.specs.declared.declaration.CLocal.TheVariants as local;
ghost use Rattle.c_tree.specs.declared.declaration.CField.TheVariants as field;
ghost use Rattle.c_tree.specs.declared.file.CObject.TheVariants as object;
ghost use Rattle.c_tree.specs.declared.file.CFile.{CFile};
ghost use Rattle.c_tree.specs.Tokens.{Token, Word, Digits, Quoted, Sign, Bad, Gap, Lexeme, head_of, last_line, run, begins_with, is_letter, is_word_byte, is_space, is_number, is_sign, begins_sign, begins_comment, line_feeds, still_alone, Placed, AreTokens, AreTokensOf};
ghost use Rattle.c_tree.specs.CWords.{is_name, is_among};
ghost use Rattle.c_tree.specs.CExpressionText.{Scope, IsKnown};
ghost use Rattle.c_tree.specs.CDeclarationText.{ReadsField, with_object};
ghost use Rattle.c_tree.specs.CLabels.{labels_meet};
ghost use Rattle.c_tree.specs.CStatementText.{has_twice};
ghost use Rattle.c_tree.specs.CText.{CText, RefusedLine, no_names};
ghost use Rattle.c_laws.specs.TextLaws.{HasTokens, SpellsOrIsRefused};
ghost use Rattle.c_tree.specs.CGuards.{object_fits, local_fits, file_fits};

/// What stands at the head of a text: the longest token, a gap, or a byte that begins no token.
pub fn heads()
    ensures longest_sign { head_of false (codes "<==") ≡ Lexeme (Sign (codes "<=")) (codes "=") }
    ensures signs_apart { head_of false (codes "=<") ≡ Lexeme (Sign (codes "=")) (codes "<") }
    ensures longest_word { head_of false (codes "go_2to+") ≡ Lexeme (Word (codes "go_2to")) (codes "+") }
    ensures greatest_number { head_of false (codes "2147483647;") ≡ Lexeme (Digits 2147483647) (codes ";") }
    ensures number_past_the_greatest { head_of false (codes "2147483648;") ≡ Lexeme Bad (codes ";") }
    ensures needless_zero { head_of false (codes "00;") ≡ Lexeme Bad (codes ";") }
    ensures digits_and_letters { head_of false (codes "1e5;") ≡ Lexeme Bad (codes ";") }
    ensures string { head_of false (codes "\"a\\0017\" b") ≡ Lexeme (Quoted (97 ∷ 1 ∷ 55 ∷ [])) (codes " b") }
    ensures open_string { head_of false (codes "\"a\n\"") ≡ Lexeme Bad (codes "a\n\"") }
    ensures comment { head_of false (codes "/*/ **/ b") ≡ Gap (codes "/*/ **/") (codes " b") }
    ensures open_comment { head_of false (codes "/* b") ≡ Lexeme Bad (codes "* b") }
    ensures one_bar { head_of false (codes "|+") ≡ Lexeme Bad (codes "+") }
    ensures include_not_alone { head_of false (codes "#include \"f2c.h\"\n") ≡ Lexeme Bad (codes "include \"f2c.h\"\n") }
    ensures last_line_feed { last_line (codes "a\nb\n") ≡ 2 }
    ensures no_last_line_feed { last_line (codes "a\nb\n\nc") ≡ 4 }
    ensures empty { last_line [] ≡ 1 }
{}

/// A text has one list of tokens, and a run of bytes that pass a test is the longest.
#[tactic(auto, using(crate::proofs::TokenLaws::one_token_list, crate::proofs::TokenLaws::run_whole, crate::proofs::TokenLaws::run_longest))]
pub fn token_laws()
    ensures one_list { (text : List ℕ) (xs ys : List Placed) → AreTokensOf text xs → AreTokensOf text ys → xs ≡ ys }
    ensures whole { (test : ℕ → Bool) (text : List ℕ) → (run test text).front ++ (run test text).rest ≡ text }
    ensures longest { (test : ℕ → Bool) (text : List ℕ) → begins_with test (run test text).rest ≡ false }
{}

/// How words, numbers, signs and white space read back before what follows them.
pub fn spellings()
    ensures word { (line : ℕ) (alone : Bool) (text rest : List ℕ) (tokens : List Placed) → begins_with is_letter text ≡ true → list_all is_word_byte text ≡ true → begins_with is_word_byte rest ≡ false → AreTokens line false rest tokens → AreTokens line alone (text ++ rest) (record { token = Word text; line = line } ∷ tokens) }
    ensures number { (line : ℕ) (alone : Bool) (text rest : List ℕ) (tokens : List Placed) → begins_with is_ascii_digit text ≡ true → is_number text ≡ true → begins_with is_word_byte rest ≡ false → AreTokens line false rest tokens → AreTokens line alone (text ++ rest) (record { token = Digits (digits_value 10 text); line = line } ∷ tokens) }
    ensures sign { (line : ℕ) (alone : Bool) (byte : ℕ) (rest : List ℕ) (tokens : List Placed) → begins_sign byte ≡ true → begins_comment (byte ∷ rest) ≡ false → is_sign (byte ∷ []) ≡ true → is_sign (take 2 (byte ∷ rest)) ≡ false → AreTokens line false rest tokens → AreTokens line alone (byte ∷ rest) (record { token = Sign (byte ∷ []); line = line } ∷ tokens) }
    ensures long_sign { (line : ℕ) (alone : Bool) (a b : ℕ) (rest : List ℕ) (tokens : List Placed) → begins_sign a ≡ true → begins_comment (a ∷ b ∷ rest) ≡ false → is_sign (a ∷ b ∷ []) ≡ true → AreTokens line false rest tokens → AreTokens line alone (a ∷ b ∷ rest) (record { token = Sign (a ∷ b ∷ []); line = line } ∷ tokens) }
    ensures space { (line : ℕ) (alone : Bool) (byte : ℕ) (rest : List ℕ) (tokens : List Placed) → is_space byte ≡ true → AreTokens (line + line_feeds (byte ∷ [])) (still_alone alone (byte ∷ [])) rest tokens → AreTokens line alone (byte ∷ rest) tokens }
{}

/// A text spells one tree at most.
pub fn one_text_one_tree()
    ensures one_tree { (bytes : List ℕ) (one other : CFile) → CText bytes one → CText bytes other → one ≡ other }
{}

/// Each text has its tokens, and none neither spells a tree nor is refused at a line.
pub fn each_text()
    ensures has_tokens { (bytes : List ℕ) → HasTokens bytes }
    ensures spells_or_is_refused { (bytes : List ℕ) → SpellsOrIsRefused bytes }
{}

/// A text that spells a tree is refused at no line, and a text is refused at one line at most.
pub fn refusals()
    ensures not_both { (bytes : List ℕ) (file : CFile) (line : ℕ) → CText bytes file → RefusedLine bytes line → ⊥ }
    ensures one_line { (bytes : List ℕ) (m n : ℕ) → RefusedLine bytes m → RefusedLine bytes n → m ≡ n }
{}

/// What a text's tree keeps, and trees that do not.
pub fn guards()
    ensures kept { (bytes : List ℕ) (file : CFile) → CText bytes file → file_fits file ≡ true }
    ensures unknown_name { (name : List ℕ) → IsKnown no_names name → is_among name (codes "TRUE_" ∷ codes "FALSE_" ∷ []) ≡ true }
    ensures constant_field { (scope : Scope) (name : List ℕ) (p q : List Token) → ReadsField scope (field.Name name) p q → is_among name (scope.arrays ++ scope.functions) ≡ true }
    ensures scalar_is_no_constant { is_among (codes "k") ((with_object (codes "k") no_names).arrays ++ (with_object (codes "k") no_names).functions) ≡ false }
    ensures missing_label { labels_meet (stmt.Goto (codes "L10") ∷ []) ≡ false }
    ensures label_twice { labels_meet (stmt.Label (codes "L1") stmt.Empty ∷ stmt.Block (stmt.Label (codes "L1") stmt.Empty ∷ []) ∷ stmt.Goto (codes "L1") ∷ []) ≡ false }
    ensures label_twice_not_named { labels_meet (stmt.Label (codes "L1") (stmt.Label (codes "L1") stmt.Empty) ∷ []) ≡ true }
    ensures case_twice { has_twice (pos 1 ∷ pos 2 ∷ pos 1 ∷ []) ≡ true }
    ensures name { is_name (codes "_a9") ≡ true }
    ensures word_as_name { is_name (codes "goto") ≡ false }
    ensures truth_as_name { is_name (codes "TRUE_") ≡ false }
    ensures digit_first { is_name (codes "9a") ≡ false }
    ensures long_image { object_fits (object.Integers (codes "b_") 1 (Some (pos 1 ∷ pos 2 ∷ []))) ≡ false }
    ensures empty_image { object_fits (object.Integers (codes "b_") 1 (Some [])) ≡ false }
    ensures long_string { local_fits (local.StaticChars (codes "k") (Some 2) (Some (codes "abc"))) ≡ false }
    ensures no_length { local_fits (local.StaticChars (codes "k") None None) ≡ false }
    ensures no_field { local_fits (local.StaticList list.Transfer (codes "k") []) ≡ false }
    ensures a_field_too_many { local_fits (local.StaticList list.Position (codes "k") (field.Number (pos 0) ∷ field.Number (pos 6) ∷ field.Number (pos 0) ∷ [])) ≡ false }
    ensures word_of_c { is_name (codes "register") ≡ false }
{}
