//! Texts of the subset with the trees that they spell (C89, 3.1 and 3.3 to 3.7). A function here
//! does nothing, and its contract is the rows.
#![tactic(auto, unfolding(c_tree::specs::Opened::trees_opened), using(c_laws::proofs::TextReading::spelled_by))]

ghost use Rattle.std.specs.Prelude.{[], ◌∷◌, pos, negsuc, codes, None, Some};
ghost use Rattle.c_tree.specs.declared.types.CastType.TheVariants as to;
ghost use Rattle.c_tree.specs.declared.types.FunctionType.TheVariants as pointer;
ghost use Rattle.c_tree.specs.declared.types.NumberType.TheVariants as number;
ghost use Rattle.c_tree.specs.declared.types.ResultType.TheVariants as gives;
ghost use Rattle.c_tree.specs.declared.types.ListType.TheVariants as list;
ghost use Rattle.c_tree.specs.declared.types.ParameterType.TheVariants as parameter;
ghost use Rattle.c_tree.specs.declared.types.ArgumentType.TheVariants as argument;
ghost use Rattle.c_tree.specs.declared.expression.UnaryOp.TheVariants as prefix;
ghost use Rattle.c_tree.specs.declared.expression.BinaryOp.TheVariants as op;
ghost use Rattle.c_tree.specs.declared.expression.Extreme.TheVariants as extreme;
ghost use Rattle.c_tree.specs.declared.expression.CExpr.TheVariants as expr;
ghost use Rattle.c_tree.specs.declared.statement.CNext.TheVariants as next;
ghost use Rattle.c_tree.specs.declared.statement.CStmt.TheVariants as stmt;
ghost use Rattle.c_tree.specs.declared.declaration.CField.TheVariants as field;
ghost use Rattle.c_tree.specs.declared.declaration.CLocal.TheVariants as local;
ghost use Rattle.c_tree.specs.declared.file.CObject.TheVariants as object;
ghost use Rattle.c_tree.specs.CText.{CText};
ghost use Rattle.c_rows.specs.RowTexts.{call, constant, name, set, do_call, extern_int, file_of, function_named, return_zero, address};
ghost use Rattle.c_rows.specs.Rows.{overflows, reads_unset, stores_outside, stores_pointer, passes_too_much, calls_itself, first_of_two, second_of_two, nothing};
ghost use Rattle.c_text_rows.specs.TextRows.{first_text, first_tree, in_file, in_main, Spells, SpellsValue, SpellsLocal, the_file, i, j, n, case, calling_function, logical_function};

/// The text of `I=2`, `PRINT *,I+3`, `END`.
pub fn first_text()
    ensures spells { CText first_text first_tree }
{}

/// Operators between operands, the closer ones first and equal ones from the left, and
/// parentheses, also more than are needed.
pub fn operators()
    ensures closer_first { SpellsValue (codes "1 + 2 * 3") (expr.Binary op.Add (n 1) (expr.Binary op.Multiply (n 2) (n 3))) }
    ensures from_the_left { SpellsValue (codes "1 - 2 - 3") (expr.Binary op.Subtract (expr.Binary op.Subtract (n 1) (n 2)) (n 3)) }
    ensures parentheses { SpellsValue (codes "1 - (2 - 3)") (expr.Binary op.Subtract (n 1) (expr.Binary op.Subtract (n 2) (n 3))) }
    ensures needless_parentheses { SpellsValue (codes "((((1)) - (2))) - 3") (expr.Binary op.Subtract (expr.Binary op.Subtract (n 1) (n 2)) (n 3)) }
    ensures logical { SpellsValue (codes "1 || 2 && 3 == 4 <= 5") (expr.Binary op.Or (n 1) (expr.Binary op.And (n 2) (expr.Binary op.Equal (n 3) (expr.Binary op.LessOrEqual (n 4) (n 5))))) }
    ensures relations { SpellsValue (codes "1 < 2 > 3 >= 4 != 5") (expr.Binary op.Unequal (expr.Binary op.GreaterOrEqual (expr.Binary op.Greater (expr.Binary op.Less (n 1) (n 2)) (n 3)) (n 4)) (n 5)) }
    ensures quotients { SpellsValue (codes "8 / 4 % 3") (expr.Binary op.Remainder (expr.Binary op.Divide (n 8) (n 4)) (n 3)) }
    ensures choices { SpellsValue (codes "1 ? 2 : 3 ? 4 : 5") (expr.Choose (n 1) (n 2) (expr.Choose (n 3) (n 4) (n 5))) }
{}

/// Operators before their operand, casts, what stands behind an operand, and what stands alone.
pub fn operands()
    ensures signs { SpellsValue (codes "- -i__1 - !i__2") (expr.Binary op.Subtract (expr.Unary prefix.Minus (expr.Unary prefix.Minus i)) (expr.Unary prefix.Not j)) }
    ensures pointers { SpellsValue (codes "*&i__1") (expr.Unary prefix.Deref (expr.Unary prefix.Address i)) }
    ensures casts { SpellsValue (codes "*(integer *)(unsigned char *)&i__1 + (ftnlen)2") (expr.Binary op.Add (expr.Unary prefix.Deref (expr.Cast to.Integers (expr.Cast to.UnsignedChars (expr.Unary prefix.Address i)))) (expr.Cast to.Length (n 2))) }
    ensures other_casts { SpellsValue (codes "(logical *)(char *)(ftnint)(U_fp)0") (expr.Cast to.Logicals (expr.Cast to.Chars (expr.Cast to.Number (expr.Cast (to.Function pointer.Unknown) (n 0))))) }
    ensures function_casts { SpellsValue (codes "(S_fp)(I_fp)(L_fp)0") (expr.Cast (to.Function pointer.Subroutine) (expr.Cast (to.Function pointer.Integer) (expr.Cast (to.Function pointer.Logical) (n 0)))) }
    ensures elements { SpellsValue (codes "-i__1[i__2 + 1][2]") (expr.Unary prefix.Minus (expr.Index (expr.Index i (expr.Binary op.Add j (n 1))) (n 2))) }
    ensures fields { SpellsValue (codes "(*i__1).cierr") (expr.Field (expr.Unary prefix.Deref i) (codes "cierr")) }
    ensures macros { SpellsValue (codes "max(1, min(2, abs(-3)))") (expr.MaxMin extreme.Max (n 1) (expr.MaxMin extreme.Min (n 2) (expr.Abs (expr.Unary prefix.Minus (n 3))))) }
    ensures truths { SpellsValue (codes "TRUE_ == FALSE_") (expr.Binary op.Equal (name (codes "TRUE_")) (name (codes "FALSE_"))) }
    ensures size { SpellsValue (codes "sizeof ( integer )") expr.SizeInt }
    ensures strings { SpellsValue (codes "\"a\\\"\\\\\\101\\377/*\"") (expr.Str (97 ∷ 34 ∷ 92 ∷ 65 ∷ 255 ∷ 47 ∷ 42 ∷ [])) }
{}

/// White space, comments, and the longest token.
pub fn tokens()
    ensures no_space { Spells (codes "i__1=i__1<=i__2==2147483647;") [] (set (codes "i__1") (expr.Binary op.Equal (expr.Binary op.LessOrEqual i j) (n 2147483647)) ∷ []) }
    ensures spaces { SpellsValue (codes "1\t+\n\r2") (expr.Binary op.Add (n 1) (n 2)) }
    ensures comments { SpellsValue (codes "4 /* / * \" \n **/ / /**/ 2") (expr.Binary op.Divide (n 4) (n 2)) }
    ensures include_line { CText (codes " /* a\n b */\n  #include \"f2c.h\" \t\n") nothing }
    ensures include_at_the_end { CText (codes "#include \"f2c.h\"") nothing }
{}

/// Statements.
pub fn statements()
    ensures assignments { Spells (codes "(i__2) = i__1; ; *&i__1 = 2;") [] (set (codes "i__2") i ∷ stmt.Empty ∷ stmt.Set (expr.Unary prefix.Deref (expr.Unary prefix.Address i)) (n 2) ∷ []) }
    ensures calls { Spells (codes "extern int f_(void); f_(); i__1 = f_(); return f_(1, i__2); return;") (extern_int (codes "f_") ∷ []) (do_call (codes "f_") [] ∷ stmt.SetCall i (call (codes "f_") []) ∷ stmt.ReturnCall (call (codes "f_") (n 1 ∷ j ∷ [])) ∷ stmt.Return None ∷ []) }
    ensures blocks { Spells (codes "{ i__1 = 1; { } { ; } }") [] (stmt.Block (set (codes "i__1") (n 1) ∷ stmt.Block [] ∷ stmt.Block (stmt.Empty ∷ []) ∷ []) ∷ []) }
    ensures labels { Spells (codes "goto L1; { L2: ; } L1: goto L2; L3: L3: ;") [] (stmt.Goto (codes "L1") ∷ stmt.Block (stmt.Label (codes "L2") stmt.Empty ∷ []) ∷ stmt.Label (codes "L1") (stmt.Goto (codes "L2")) ∷ stmt.Label (codes "L3") (stmt.Label (codes "L3") stmt.Empty) ∷ []) }
    ensures arms { Spells (codes "if (i__1) { } if (i__2) { ; } else { i__1 = 1; }") [] (stmt.If i [] None ∷ stmt.If j (stmt.Empty ∷ []) (Some (set (codes "i__1") (n 1) ∷ [])) ∷ []) }
    ensures switches { Spells (codes "switch (i__1) { case 0: goto L1; case 7: goto L1; } L1: ;") [] (stmt.Switch i (case 0 (codes "L1") ∷ case 7 (codes "L1") ∷ []) ∷ stmt.Label (codes "L1") stmt.Empty ∷ []) }
    ensures loops { Spells (codes "for (i__1 = 1; i__1 <= 9; ++i__1) { } for (i__1 = 9; i__1; --i__1) { ; } for (i__1 = 0; 1; i__1 += 2) { } do { ; } while (i__2);") [] (stmt.For i (n 1) (expr.Binary op.LessOrEqual i (n 9)) (next.Up i) [] ∷ stmt.For i (n 9) i (next.Down i) (stmt.Empty ∷ []) ∷ stmt.For i (n 0) (n 1) (next.Add i (n 2)) [] ∷ stmt.DoWhile (stmt.Empty ∷ []) j ∷ []) }
{}

/// Declarations at the head of a function.
pub fn locals()
    ensures functions { SpellsLocal (codes "extern VOID f_(integer *, logical *, char *, ftnlen, int, S_fp, cilist *, address *);") (local.Extern gives.Void (codes "f_") (argument.Parameter parameter.Integers ∷ argument.Parameter parameter.Logicals ∷ argument.Parameter parameter.Chars ∷ argument.Parameter parameter.Length ∷ argument.Parameter parameter.Int ∷ argument.Parameter (parameter.Function pointer.Subroutine) ∷ argument.List list.Transfer ∷ argument.Addresses ∷ [])) }
    ensures function_of_functions { SpellsLocal (codes "extern logical f_(I_fp, L_fp, U_fp);") (local.Extern gives.Logical (codes "f_") (argument.Parameter (parameter.Function pointer.Integer) ∷ argument.Parameter (parameter.Function pointer.Logical) ∷ argument.Parameter (parameter.Function pointer.Unknown) ∷ [])) }
    ensures function_of_lists { SpellsLocal (codes "extern integer f_(icilist *, olist *, cllist *, alist *);") (local.Extern gives.Integer (codes "f_") (argument.List list.Internal ∷ argument.List list.Open ∷ argument.List list.Close ∷ argument.List list.Position ∷ [])) }
    ensures static_number { SpellsLocal (codes "static logical k;") (local.StaticNumber number.Logical (codes "k") None) }
    ensures static_value { SpellsLocal (codes "static integer k = -5;") (local.StaticNumber number.Integer (codes "k") (Some (negsuc 4))) }
    ensures least_value { SpellsLocal (codes "static integer k = (-2147483647 - 1);") (local.StaticNumber number.Integer (codes "k") (Some (negsuc 2147483647))) }
    ensures static_array { SpellsLocal (codes "static integer k[3];") (local.StaticNumbers number.Integer (codes "k") 3 None) }
    ensures static_image { SpellsLocal (codes "static integer k[3] = { 1, -0, -2 };") (local.StaticNumbers number.Integer (codes "k") 3 (Some (pos 1 ∷ pos 0 ∷ negsuc 1 ∷ []))) }
    ensures static_text { SpellsLocal (codes "static char k[3] = \"abc\";") (local.StaticChars (codes "k") (Some 3) (Some (codes "abc"))) }
    ensures text_of_its_length { SpellsLocal (codes "static char k[] = \"abc\";") (local.StaticChars (codes "k") None (Some (codes "abc"))) }
    ensures list { SpellsLocal (codes "static icilist k = { 0, \"(I5)\", 5 };") (local.StaticList list.Internal (codes "k") (field.Number (pos 0) ∷ field.Str (codes "(I5)") ∷ field.Number (pos 5) ∷ [])) }
    ensures list_of_an_array { Spells (codes "static char t[4]; static icilist k = { 0, t };") (local.StaticChars (codes "t") (Some 4) None ∷ local.StaticList list.Internal (codes "k") (field.Number (pos 0) ∷ field.Name (codes "t") ∷ []) ∷ []) [] }
    ensures list_of_a_function { Spells (codes "extern int f_(void); static icilist k = { 0, f_ };") (extern_int (codes "f_") ∷ local.StaticList list.Internal (codes "k") (field.Number (pos 0) ∷ field.Name (codes "f_") ∷ []) ∷ []) [] }
    ensures open_list { SpellsLocal (codes "static olist k = { 0, 9, \"A\" };") (local.StaticList list.Open (codes "k") (field.Number (pos 0) ∷ field.Number (pos 9) ∷ field.Str (codes "A") ∷ [])) }
    ensures close_list { SpellsLocal (codes "static cllist k = { 1, -9 };") (local.StaticList list.Close (codes "k") (field.Number (pos 1) ∷ field.Number (negsuc 8) ∷ [])) }
    ensures position_list { SpellsLocal (codes "static alist k = { 0 };") (local.StaticList list.Position (codes "k") (field.Number (pos 0) ∷ [])) }
    ensures automatic_array { SpellsLocal (codes "logical k[2147483647];") (local.Numbers number.Logical (codes "k") 2147483647) }
    ensures automatic_text { SpellsLocal (codes "char k[1];") (local.Chars (codes "k") 1) }
    ensures addresses { SpellsLocal (codes "address k[2];") (local.Addresses (codes "k") 2) }
{}

/// Files: external objects, constants and functions with parameters.
pub fn files()
    ensures first { CText (in_file (codes "integer b_[2];\nint MAIN__(void) { extern int f_(void); b_[1] = 7; f_(); return 0; }\n")) first_of_two }
    ensures second { CText (in_file (codes "integer b_[3];\nint f_(void) { b_[2] = b_[1] / (b_[1] - 7); return 0; }\n")) second_of_two }
    ensures images { CText (in_file (codes "integer b_[2] = { 1, 2 }; char c_[4] = \"ab\"; static integer c__1 = 1;")) (record { objects = object.Integers (codes "b_") 2 (Some (pos 1 ∷ pos 2 ∷ [])) ∷ object.Chars (codes "c_") 4 (Some (codes "ab")) ∷ []; constants = constant (codes "c__1") (pos 1) ∷ []; functions = [] }) }
    ensures parameters { CText (in_file (codes "integer g_(integer *n, char *t, ftnlen t_len, I_fp f) { return (*f)(n, t_len); }")) (file_of (calling_function ∷ [])) }
    ensures other_parameters { CText (in_file (codes "logical h_(logical *k, int n, S_fp s, L_fp t, U_fp u) { return *k; }")) (file_of (logical_function ∷ [])) }
    ensures earlier_function { CText (in_file (codes "int f_(void) { return 0; } int MAIN__(void) { f_(); return 0; }")) (file_of (function_named (codes "f_") [] (return_zero ∷ []) ∷ function_named (codes "MAIN__") [] (do_call (codes "f_") [] ∷ return_zero ∷ []) ∷ [])) }
{}

/// Texts of the subset whose runs end in a fault.
pub fn hostile_texts()
    ensures overflow { CText (in_main (codes "i__1 = 2147483647 + 1;")) (the_file overflows) }
    ensures unset { CText (in_main (codes "i__1 = i__2;")) (the_file reads_unset) }
    ensures outside { CText (in_main (codes "static integer a[2]; a[2] = 1;")) (the_file stores_outside) }
    ensures kind { CText (in_main (codes "i__1 = &i__2;")) (the_file stores_pointer) }
    ensures disagree { CText (in_file (codes "int MAIN__(void) { extern int f_(int); f_(1); return 0; } int f_(void) { return 0; }")) (the_file passes_too_much) }
    ensures active { CText (in_main (codes "extern int MAIN__(void); MAIN__();")) (the_file calls_itself) }
{}
