//! Laws of the definitions that the contracts cite: each function is empty, and its contract is the
//! law.
ghost use Rattle.std.specs.Prelude.{◌≡◌, ℕ, ◌≤◌, List, ◌++◌, length, take, Ok, Err, IsTrue};
ghost use Rattle.num_text.specs.Numbers.{number_of};
ghost use Rattle.num_text.specs.declared.error.NumberFault.TheVariants.{BadNumber};
ghost use Rattle.rule_types.specs.declared.expr.Expr.{Expr};
ghost use Rattle.rule_types.specs.declared.names.NameDef.{NameDef};
ghost use Rattle.rule_types.specs.Formulas.{levels, has_small_exponents, names_pass};
ghost use Rattle.rule_types.specs.WellFormed.{FormulaFits};
ghost use Rattle.expr_parser.specs.declared.name_index.DeclaredName.{DeclaredName};
ghost use Rattle.expr_parser.specs.declared.token.TokenKind.TheVariants.{Number};
ghost use Rattle.expr_parser.specs.LongestNumbers.{IsUnsignedNumber, IsLongestNumber};
ghost use Rattle.expr_parser.specs.Names.{is_variable_at, declared_names};
ghost use Rattle.expr_parser.specs.Reading.{expr_in, IsBuilt};
ghost use Rattle.expr_parser.specs.Tokens.{lexeme};

/// A formula that is read is what the grammar builds of the text in at most 64 levels. Its tree has
/// at most 64 levels, exponents of at most 8, and names that are variables alone. So where the
/// names are those of some definitions, it fits behind them, whatever definitions come later.
pub fn formulas_read()
    ensures built { (names : List DeclaredName) (text : List ℕ) (formula : Expr)
        → expr_in names text ≡ Ok formula → IsBuilt names text formula }
    ensures levels { (names : List DeclaredName) (text : List ℕ) (formula : Expr)
        → expr_in names text ≡ Ok formula → levels formula ≤ 64 }
    ensures exponents { (names : List DeclaredName) (text : List ℕ) (formula : Expr)
        → expr_in names text ≡ Ok formula → IsTrue (has_small_exponents formula) }
    ensures variables { (names : List DeclaredName) (text : List ℕ) (formula : Expr)
        → expr_in names text ≡ Ok formula
        → IsTrue (names_pass (is_variable_at names) formula) }
    ensures fits { (names later : List NameDef) (text : List ℕ) (formula : Expr)
        → expr_in (declared_names names) text ≡ Ok formula
        → FormulaFits (names ++ later) (length names) formula }
{}

/// The token at the head of a text is a number exactly where the text begins with one, and it is
/// then the longest number that the text begins with: it is read, or too large.
pub fn longest_numbers()
    ensures longest { (text : List ℕ) → (lexeme text).kind ≡ Number
        → IsLongestNumber text (lexeme text).length }
    ensures found { (front back : List ℕ) → IsUnsignedNumber front
        → (lexeme (front ++ back)).kind ≡ Number }
    ensures number { (text : List ℕ) → (lexeme text).kind ≡ Number
        → number_of (take (lexeme text).length text) ≡ Err BadNumber → ⊥ }
{}
