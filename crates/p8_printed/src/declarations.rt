// What is written of declarations is read back.

ghost use Rattle.std.specs.Prelude.{◌≡◌, Bool, List, [], ◌∷◌, Some, All, map};
ghost use Rattle.p8_tree.specs.Sources.{Constant, Declared, Child, MethodTree};
ghost use Rattle.p8_tree.specs.Forgetting.{constant_anywhere, declared_anywhere, child_anywhere, method_anywhere};
ghost use Rattle.p8_lexer.specs.Pieces.{Piece};
ghost use Rattle.p8_lines.specs.declared.state.LineState as state;
ghost use Rattle.p8_lines.specs.declared.state.LineState.TheVariants as state_case;
ghost use Rattle.p8_lines.specs.Tokens.{LineToken};
ghost use Rattle.p8_lines.specs.Lines.{Leads};
ghost use Rattle.p8_declarations.specs.Constants.{constants_of_row};
ghost use Rattle.p8_declarations.specs.Variables.{variables_of_row};
ghost use Rattle.p8_declarations.specs.Objects.{objects_of_row};
ghost use Rattle.p8_declarations.specs.Methods.{method_of_row};
ghost use Rattle.p8_printed.specs.Rereading.{AreOfSource, ReadsBack};
ghost use Rattle.p8_print.specs.DeclarationWords.{words_of_constant, words_of_variable, words_of_child, words_of_head};

/// Each item of a line of `CON`, written as a line of its own, is read back, but for places.
pub fn constants_read_back()
    ensures head { (us : List LineToken) (row : List Piece) (xs : List Constant) → Leads state_case.ConHead us row state_case.End → AreOfSource us →
        constants_of_row row ≡ Some xs → All (λ x. ReadsBack constants_of_row (map constant_anywhere) state_case.ConItem (words_of_constant x) (x ∷ [])) xs }
    ensures line { (us : List LineToken) (row : List Piece) (xs : List Constant) → Leads state_case.ConItem us row state_case.End → AreOfSource us →
        constants_of_row row ≡ Some xs → All (λ x. ReadsBack constants_of_row (map constant_anywhere) state_case.ConItem (words_of_constant x) (x ∷ [])) xs }
{
    p8_expr::lexemes_are_proper();
    p8_blocks::rows_are_proper();
    p8_declarations::declarations_are_proper();
}

/// Each variable of a line of `VAR`, written as a line of its own, is read back, but for places.
pub fn variables_read_back()
    ensures head { (us : List LineToken) (row : List Piece) (xs : List Declared) → Leads state_case.VarHead us row state_case.End → AreOfSource us →
        variables_of_row row ≡ Some xs → All (λ x. ReadsBack variables_of_row (map declared_anywhere) state_case.VarLine (words_of_variable x) (x ∷ [])) xs }
    ensures line { (us : List LineToken) (row : List Piece) (xs : List Declared) → Leads state_case.VarLine us row state_case.End → AreOfSource us →
        variables_of_row row ≡ Some xs → All (λ x. ReadsBack variables_of_row (map declared_anywhere) state_case.VarLine (words_of_variable x) (x ∷ [])) xs }
{
    p8_expr::lexemes_are_proper();
    p8_blocks::rows_are_proper();
    p8_declarations::declarations_are_proper();
}

/// The object of a line of `OBJ` is read back, but for places.
pub fn objects_read_back()
    ensures head { (us : List LineToken) (row : List Piece) (xs : List Child) → Leads state_case.ObjHead us row state_case.End → AreOfSource us →
        objects_of_row row ≡ Some xs → All (λ x. ReadsBack objects_of_row (map child_anywhere) state_case.ObjLine (words_of_child x) (x ∷ [])) xs }
    ensures line { (us : List LineToken) (row : List Piece) (xs : List Child) → Leads state_case.ObjLine us row state_case.End → AreOfSource us →
        objects_of_row row ≡ Some xs → All (λ x. ReadsBack objects_of_row (map child_anywhere) state_case.ObjLine (words_of_child x) (x ∷ [])) xs }
{
    p8_expr::lexemes_are_proper();
    p8_blocks::rows_are_proper();
    p8_declarations::declarations_are_proper();
}

/// The head of a method is read back, but for places.
pub fn heads_read_back()
    ensures { (public : Bool) (us : List LineToken) (row : List Piece) (m : MethodTree) → Leads state_case.MethodName us row state_case.End →
        AreOfSource us → method_of_row public row ≡ Some m → ReadsBack (method_of_row public) method_anywhere state_case.MethodName (words_of_head m) m }
{
    p8_expr::lexemes_are_proper();
    p8_blocks::rows_are_proper();
    p8_declarations::declarations_are_proper();
}
