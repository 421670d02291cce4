// Words compared. A function, since `==` takes a byte string only with `.as_slice()` behind it.
ghost use Rattle.std.specs.Prelude.{◌≡◌};
ghost use Rattle.request.specs.Request.{alike};

pub fn same(a: &[u8], b: &[u8]) -> bool
    ensures { result ≡ alike a.now b.now }
{
    a == b
}
