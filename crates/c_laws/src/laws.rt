//! Laws of the C meaning. A function here does nothing, and its contract is the law.
#![tactic(auto)]

ghost use Rattle.std.specs.Prelude.{◌≡◌, ◌<◌, ◌≤◌, ◌+◌, ◌%◌, ◌⊎◌, nat_le, if◌then◌else◌, ℕ, suc, ℤ, FitsSigned, List, [], ◌∷◌, map, length, drop, slice_get, slice_set, Option, None, Some, Ok};
ghost use Rattle.std.specs.Int.{w32};
ghost use Rattle.c_tree.specs.simulation.Machine.{Runs, Over, Broken, Frame, act, next};
ghost use Rattle.c_tree.specs.edit_meaning.Formats.{Format};
ghost use Rattle.c_tree.specs.edit_meaning.FormatTexts.{format_of, format_end};
ghost use Rattle.c_tree.specs.run_state.Units.{Units};
ghost use Rattle.c_tree.specs.declared.types.CastType.{CastType};
ghost use Rattle.c_tree.specs.declared.expression.UnaryOp.{UnaryOp};
ghost use Rattle.c_tree.specs.declared.expression.BinaryOp.{BinaryOp};
ghost use Rattle.c_tree.specs.declared.expression.Extreme.{Extreme};
ghost use Rattle.c_tree.specs.declared.expression.CExpr.{CExpr};
ghost use Rattle.c_tree.specs.declared.expression.CExpr.TheVariants as expr;
ghost use Rattle.c_tree.specs.declared.expression.CCall.{CCall};
ghost use Rattle.c_tree.specs.declared.statement.CStmt.{CStmt};
ghost use Rattle.c_tree.specs.declared.statement.CStmt.TheVariants as stmt;
ghost use Rattle.c_tree.specs.declared.statement.CCase.{CCase};
ghost use Rattle.c_tree.specs.declared.statement.CNext.{CNext};
ghost use Rattle.c_tree.specs.declared.outcome.CValue.TheVariants as value;
ghost use Rattle.c_tree.specs.declared.outcome.CFault.TheVariants as fault;
ghost use Rattle.c_tree.specs.Faults.{Break, failing};
ghost use Rattle.c_tree.specs.Access.{ToNumber};
ghost use Rattle.c_tree.specs.Objects.{Object, Bytes, plain, overlaid, bytes_of_number, fetched, stored};
ghost use Rattle.c_tree.specs.Terms as term;
ghost use Rattle.c_tree.specs.Flat as flat;
ghost use Rattle.c_tree.specs.Drafts.{bare, drafted, joined, joined_three};
ghost use Rattle.c_tree.specs.LinkedExpressions.{linked, string, name_of, linked_call};
ghost use Rattle.c_tree.specs.FlatForm.{body, body_of_all, one, marked, jump, set_call, invoked, return_call, returned, if_only, if_else, switch, for_loop, do_while};
ghost use Rattle.c_tree.specs.Linking.{Function, Program};
ghost use Rattle.c_tree.specs.World.{World, Ending};
ghost use Rattle.c_tree.specs.Steps.{View, sorts, language, step, deed};
ghost use Rattle.c_tree.specs.Meaning.{machine, text_of, run_of};
ghost use Rattle.c_tree.specs.FormatsGiven.{format_at};

/// The step of a whole run is that of the last called function: it sees its own view and what all functions
/// share, and nothing of those that wait. A run that has ended, or that a fault has ended, stays.
pub fn steps_of_a_run()
    ensures one_more { (program : Program) → (units : Units) → (count : ℕ) → run_of program units (suc count) ≡ next language (machine program) (run_of program units count) }
    ensures seen_alone { (program : Program) → (number : ℕ) → (view : View) → (waiting : List (Frame sorts)) → (world : World) → next language (machine program) (Runs number view waiting world) ≡ act language (machine program) (step (text_of program.functions number) view world) number waiting }
    ensures ended_stays { (program : Program) → (ending : Ending) → (waiting : List (Frame sorts)) → (world : World) → next language (machine program) (Over ending waiting world) ≡ Over ending waiting world }
    ensures broken_stays { (program : Program) → (reason : Break) → (numbers : List ℕ) → next language (machine program) (Broken reason numbers) ≡ Broken reason numbers }
    ensures item { (function : Function) → (view : View) → (world : World) → (item : flat.Flat) → slice_get function.code view.position ≡ Some item → step function view world ≡ deed function view world item }
{}

/// What each form of expression is linked to.
#[tactic(auto, using(crate::proofs::TreeEquations::tree_equations))]
pub fn linked_expressions()
    ensures number { (number : ℤ) → linked (expr.Number number) ≡ bare (term.Constant number) }
    ensures text { (bytes : List ℕ) → linked (expr.Str bytes) ≡ string bytes }
    ensures name { (name : List ℕ) → linked (expr.Name name) ≡ name_of name }
    ensures prefix { (operator : UnaryOp) → (operand : CExpr) → linked (expr.Unary operator operand) ≡ drafted (λ a. term.Prefixed operator a) (linked operand) }
    ensures cast { (type : CastType) → (operand : CExpr) → linked (expr.Cast type operand) ≡ drafted (λ a. term.Cast type a) (linked operand) }
    ensures between { (operator : BinaryOp) → (left : CExpr) → (right : CExpr) → linked (expr.Binary operator left right) ≡ joined (λ a b. term.Between operator a b) (linked left) (linked right) }
    ensures choice { (test : CExpr) → (first : CExpr) → (second : CExpr) → linked (expr.Choose test first second) ≡ joined_three (λ a b c. term.Choice a b c) (linked test) (linked first) (linked second) }
    ensures element { (array : CExpr) → (index : CExpr) → linked (expr.Index array index) ≡ joined (λ a b. term.Element a b) (linked array) (linked index) }
    ensures field { (operand : CExpr) → (name : List ℕ) → linked (expr.Field operand name) ≡ drafted (λ a. term.Field a name) (linked operand) }
    ensures size { linked expr.SizeInt ≡ bare term.Size }
    ensures extreme { (which : Extreme) → (left : CExpr) → (right : CExpr) → linked (expr.MaxMin which left right) ≡ joined (λ a b. term.Most which a b) (linked left) (linked right) }
    ensures magnitude { (operand : CExpr) → linked (expr.Abs operand) ≡ drafted (λ a. term.Magnitude a) (linked operand) }
{}

/// The flat form of each form of statement.
#[tactic(auto, using(crate::proofs::TreeEquations::tree_equations))]
pub fn flat_statements()
    ensures assignment { (target : CExpr) → (value : CExpr) → body (stmt.Set target value) ≡ one (joined (λ a b. flat.Assign a b) (linked target) (linked value)) }
    ensures kept_call { (target : CExpr) → (call : CCall) → body (stmt.SetCall target call) ≡ one (set_call target call) }
    ensures call { (call : CCall) → body (stmt.Call call) ≡ one (drafted (invoked flat.Ignored) (linked_call call)) }
    ensures empty { body stmt.Empty ≡ one (bare flat.Nothing) }
    ensures block { (statements : List CStmt) → body (stmt.Block statements) ≡ body_of_all statements }
    ensures label { (name : List ℕ) → (statement : CStmt) → body (stmt.Label name statement) ≡ marked name (body statement) }
    ensures goes { (label : List ℕ) → body (stmt.Goto label) ≡ jump label }
    ensures returns { (value : Option CExpr) → body (stmt.Return value) ≡ one (returned value) }
    ensures returns_call { (call : CCall) → body (stmt.ReturnCall call) ≡ return_call call }
    ensures one_arm { (test : CExpr) → (first : List CStmt) → body (stmt.If test first None) ≡ if_only test (body_of_all first) }
    ensures two_arms { (test : CExpr) → (first : List CStmt) → (second : List CStmt) → body (stmt.If test first (Some second)) ≡ if_else test (body_of_all first) (body_of_all second) }
    ensures cases { (value : CExpr) → (cases : List CCase) → body (stmt.Switch value cases) ≡ switch value cases }
    ensures turns { (variable : CExpr) → (first : CExpr) → (test : CExpr) → (next_ : CNext) → (turn : List CStmt) → body (stmt.For variable first test next_ turn) ≡ for_loop variable first test next_ (body_of_all turn) }
    ensures turns_first { (turn : List CStmt) → (test : CExpr) → body (stmt.DoWhile turn test) ≡ do_while (body_of_all turn) test }
{}

/// A number that is stored is read back, and no other object changes.
pub fn stores()
    ensures stored { (objects : List Object) → (object : ℕ) → (offset : ℕ) → (number : ℤ) → (bytes : List (Option ℕ)) → slice_get objects object ≡ Some (Bytes bytes) → offset % 4 ≡ 0 → offset + 4 ≤ length bytes
        → stored objects (record { at = value.Pointer object offset; access = ToNumber }) (value.Number number) ≡ Ok (slice_set objects object (Bytes (overlaid offset (bytes_of_number number) bytes))) }
    ensures read_back { (objects : List Object) → (object : ℕ) → (offset : ℕ) → (number : ℤ) → (bytes : List (Option ℕ)) → object < length objects → FitsSigned w32 number → offset % 4 ≡ 0 → offset + 4 ≤ length bytes
        → fetched (slice_set objects object (Bytes (overlaid offset (bytes_of_number number) bytes))) (record { at = value.Pointer object offset; access = ToNumber }) ≡ Ok (plain (value.Number number)) }
{}

/// A format that a pointer gives is the one that the text there begins with; where the text begins with none,
/// there is no format or the text ends early.
pub fn formats_in_memory()
    ensures begins { (objects : List Object) → (object : ℕ) → (offset : ℕ) → (bytes : List (Option ℕ)) → (text : List ℕ) → (format : Format) → (size : ℕ) → slice_get objects object ≡ Some (Bytes bytes) → drop offset bytes ≡ map Some text
        → format_of text ≡ Some format → format_end text ≡ Some size → format_at objects (value.Pointer object offset) ≡ Ok (if nat_le size 2048 then Some format else None) }
    ensures no_format { (objects : List Object) → (object : ℕ) → (offset : ℕ) → (bytes : List (Option ℕ)) → (text : List ℕ) → slice_get objects object ≡ Some (Bytes bytes) → drop offset bytes ≡ map Some text
        → format_of text ≡ None → (format_at objects (value.Pointer object offset) ≡ Ok None) ⊎ (format_at objects (value.Pointer object offset) ≡ failing fault.Outside) }
{}
