// Grids: something for each node, which is a field of a found shape, 7 × place of the shape + field; field 0 stands for no field.
ghost use Rattle.std.specs.Prelude.{◌≡◌, [], ◌∷◌, ◌+◌, ◌*◌, ◌<◌, length};
ghost use Rattle.judging.specs.Inner.Nodes.{at, put, Grid, Zeros, from_of, link_of, put_raise};

// A number for each node.
pub(crate) type Numbers = [[u16; 7]; 512];
// How each node was raised last: the node that it was raised from, and the code of the link.
pub(crate) type Raises = [[u16; 2]; 3584];

// 512 times seven zeros.
pub(crate) fn no_numbers() -> Numbers
    ensures { Zeros result }
{
    [[0u16; 7]; 512]
}

// No node was raised.
pub(crate) fn no_raises() -> Raises
    ensures { length result ≡ 3584 }
{
    [[0u16; 2]; 3584]
}

// The number of node v.
pub(crate) fn number(g: &Numbers, v: usize) -> u16
    requires { Grid g.now × (v < 3584) }
    ensures { result ≡ at g.now v }
{
    g[v / 7][v % 7]
}

// The node that node v was raised from.
pub(crate) fn from_of(raises: &Raises, v: usize) -> u16
    requires { v < 3584 }
    ensures { result ≡ from_of raises.now v }
{
    raises[v][0]
}

// The code of the link by which node v was raised.
pub(crate) fn link_of(raises: &Raises, v: usize) -> u16
    requires { v < 3584 }
    ensures { result ≡ link_of raises.now v }
{
    raises[v][1]
}

// Field p of shape s.
pub(crate) fn field(g: &Numbers, s: usize, p: usize) -> u16
    requires { Grid g.now × (s < 512) × (p < 7) }
    ensures { result ≡ at g.now (7 * s + p) }
{
    g[s][p]
}

// Puts a number at field p of shape s.
pub(crate) fn put_field(g: &mut Numbers, s: usize, p: usize, x: u16)
    requires { Grid g.old × (s < 512) × (p < 7) }
    ensures { g.new ≡ put g.old (7 * s + p) x }
{
    g[s][p] = x;
}

// Puts at field p of shape s that it was raised from node u by a link.
pub(crate) fn put_raise(raises: &mut Raises, s: usize, p: usize, u: u16, link: u16)
    requires { (s < 512) × (p < 7) }
    ensures { raises.new ≡ put_raise raises.old (7 * s + p) u link }
{
    raises[7 * s + p] = [u, link];
}
