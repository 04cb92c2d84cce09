// What a statement binds.

ghost use Rattle.std.specs.Prelude.{◌≡◌, ◌&&◌};
ghost use Rattle.hum_meaning.specs.Scope.{found_of_stmt};
ghost use Rattle.hum_core.specs.Units.{of_file};
ghost use Rattle.hum_scope.specs.Walks.{shown, kind_of, found_of_expr};
ghost use Rattle.hum_scope.specs.Translations.{made_of_expr, made_of_pat};

use hum_syntax::{Expr, Name, Pat, Stmt};

/// What a statement binds.
#[derive(Clone, Copy)]
pub enum Binding<'a> {
    /// A function of that name, which its whole stretch sees.
    Function(&'a Name),
    /// Names that the statements behind it see.
    Values,
    Nothing,
}

fn is_abstraction(e: &Expr) -> bool
    ensures found { result ≡ (found_of_expr e.now).is_abstraction }
    ensures made { result ≡ (made_of_expr e.now).is_abstraction }
{
    match e {
        Expr::Abs(_, _) => true,
        Expr::Undef => false,
        Expr::Nil => false,
        Expr::True => false,
        Expr::False => false,
        Expr::Num(_) => false,
        Expr::Sym(_) => false,
        Expr::Text(_) => false,
        Expr::Var(_) => false,
        Expr::Myself => false,
        Expr::Block(_) => false,
        Expr::Call(_, _) => false,
        Expr::Tuple(_) => false,
        Expr::New(_) => false,
        Expr::Case(_, _) => false,
        Expr::If(_, None) => false,
        Expr::If(_, Some(_)) => false,
    }
}

/// Whether a definition is a function's: a name with an abstraction.
pub fn is_function(p: &Pat, e: &Expr) -> bool
    ensures { result ≡ ((made_of_pat p.now).is_name && (made_of_expr e.now).is_abstraction) }
{
    match p {
        Pat::Bind(_) => is_abstraction(e),
        Pat::Any => false,
        Pat::Undef => false,
        Pat::Nil => false,
        Pat::True => false,
        Pat::False => false,
        Pat::Num(_) => false,
        Pat::Sym(_) => false,
        Pat::Value(_) => false,
        Pat::Tuple(_) => false,
    }
}

/// What the statement binds.
pub fn binds(s: &Stmt) -> Binding<'_>
    ensures found { shown result ≡ kind_of (found_of_stmt s.now).binds }
    ensures made { shown result ≡ kind_of (of_file s.now).binds }
{
    match s {
        Stmt::Let(Pat::Bind(name), value) => {
            if is_abstraction(value) {
                Binding::Function(name)
            } else {
                Binding::Values
            }
        }
        Stmt::Let(Pat::Any, _) => Binding::Values,
        Stmt::Let(Pat::Undef, _) => Binding::Values,
        Stmt::Let(Pat::Nil, _) => Binding::Values,
        Stmt::Let(Pat::True, _) => Binding::Values,
        Stmt::Let(Pat::False, _) => Binding::Values,
        Stmt::Let(Pat::Num(_), _) => Binding::Values,
        Stmt::Let(Pat::Sym(_), _) => Binding::Values,
        Stmt::Let(Pat::Value(_), _) => Binding::Values,
        Stmt::Let(Pat::Tuple(_), _) => Binding::Values,
        Stmt::Create(_, _) => Binding::Values,
        Stmt::Send(_, _) => Binding::Nothing,
        Stmt::Become(_) => Binding::Nothing,
        Stmt::Throw(_) => Binding::Nothing,
        Stmt::Do(_) => Binding::Nothing,
    }
}
