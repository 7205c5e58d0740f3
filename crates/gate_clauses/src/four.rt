// Four clauses of three literals.
ghost use Rattle.std.specs.Prelude.{◌≡◌};
ghost use Rattle.gate_clauses.specs.declared.Shape.TheVariants.{Xor, Ite};
ghost use Rattle.gate_clauses.specs.Shapes.{clauses_of};

use edge::not;

// g is a xor b.
pub fn xor_clauses(g: u32, a: u32, b: u32) -> [[u32; 3]; 4]
    ensures { result ≡ clauses_of g (Xor a b) }
{
    let ng = not(g);
    let na = not(a);
    let nb = not(b);
    [[ng, a, b], [ng, na, nb], [g, na, b], [g, a, nb]]
}

// g is t if c, else e.
pub fn ite_clauses(g: u32, c: u32, t: u32, e: u32) -> [[u32; 3]; 4]
    ensures { result ≡ clauses_of g (Ite c t e) }
{
    let ng = not(g);
    let nc = not(c);
    let nt = not(t);
    let ne = not(e);
    [[ng, nc, t], [ng, c, e], [g, nc, nt], [g, c, ne]]
}
