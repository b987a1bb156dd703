// Purpose trees, labels and compliance: a library that knows no texts and no tables.
#![tactic(auto)]

ghost use Rattle.std.specs.Prelude.{◌≡◌, ◌&&◌, ◌||◌, [], ℕ, ◌≤◌, ◌<◌, min, length, get_or, take, eqb, ltb};
ghost use Rattle.lists.specs.Lists.{member};
ghost use Rattle.purpose.specs.Compliance.{intersects, Same, descends, related, in_tree, opens};
ghost use Rattle.purpose.specs.Members.{limit, members, including};
ghost use Rattle.purpose.specs.Meaning.{tree_held, tree_from, marks_held, TreeGrows, ClosureOf, admitted, is_above};
ghost use Rattle.purpose.specs.Verdicts.{verdict_by, over, open_by};

// How many words of 64 bits hold a set of purposes, and the most purposes that a tree has.
pub const WORDS: usize = 4;

pub const LIMIT: usize = WORDS * 64;

// A tree of purposes: the parent of each of the first `count`, in order of definition. The first has none.
#[derive(Clone, Copy)]
pub struct Tree {
    pub parents: [u8; LIMIT],
    pub count: usize,
}

// The purposes that a label allows and denies, as bits.
#[derive(Clone, Copy)]
pub struct Label {
    pub allowed: [u64; WORDS],
    pub denied: [u64; WORDS],
}

// What a label, or several merged, say of a purpose: whether it descends from an allowed one, and whether it is ancestor or descendant
// of a denied one.
#[derive(Clone, Copy)]
pub struct Verdict {
    pub allowed: bool,
    pub denied: bool,
}

// The ancestors of a purpose, and its ancestors with its descendants, as bits.
#[derive(Clone, Copy)]
pub struct Closure {
    pub ancestors: [u64; WORDS],
    pub relatives: [u64; WORDS],
}

// A tree with no purpose.
pub fn no_purposes() -> Tree
    ensures { tree_held result ≡ [] }
{
    Tree {
        parents: [0u8; LIMIT],
        count: 0,
    }
}

// How many purposes the tree has: never more than the limit, whatever `count` says.
pub fn size(t: Tree) -> usize
    ensures { (result ≡ length (tree_held t)) × (result ≤ limit) }
{
    let n = t.count;
    if n < LIMIT { n } else { LIMIT }
}

// The tree with its first purpose; refused, as it was, if it has one already.
pub fn add_root(t: Tree) -> Result<Tree, Tree>
    ensures { TreeGrows (eqb (length (tree_held t)) 0) 0 t result }
{
    let n = t.count;
    if n == 0 {
        let mut g = t;
        g.parents[0] = 0;
        g.count = 1;
        return Ok(g);
    }
    Err(t)
}

// The tree with one purpose more below `parent`; refused, as it was, if it is full or has no such purpose.
pub fn add_child(t: Tree, parent: usize) -> Result<Tree, Tree>
    ensures { TreeGrows (ltb (length (tree_held t)) limit && in_tree (tree_held t) parent) parent t result }
{
    let n = t.count;
    if n < LIMIT {
        if parent < n {
            let mut g = t;
            g.parents[n] = parent as u8;
            g.count = n + 1;
            return Ok(g);
        }
    }
    Err(t)
}

// The tree that `add_root` and then `add_child` for each further parent give, without a copy for each: what is refused is left out.
pub fn tree_of(parents: &[usize], count: usize) -> Tree
    ensures { tree_held result ≡ tree_from (take count parents.now) }
{
    let m = count.min(parents.len());
    if m == 0 {
        return no_purposes();
    }
    let mut ps = [0u8; LIMIT];
    let mut n: usize = 1;
    for i in 1..m {
        let q = parents[i];
        if n < LIMIT {
            if q < n {
                ps[n] = q as u8;
                n += 1;
            }
        }
    }
    Tree {
        parents: ps,
        count: n,
    }
}

// The empty set.
pub fn no_members() -> [u64; WORDS]
    ensures { Same (members result) [] }
{
    [0u64; WORDS]
}

// Whether p is in the set.
pub fn contains(s: [u64; WORDS], p: usize) -> bool
    ensures { result ≡ member p (members s) }
{
    if p < LIMIT {
        let k = p / 64;
        let b = p % 64;
        (s[k] >> b) % 2 == 1
    } else {
        false
    }
}

// The set with p, which is left out if no tree has it.
pub fn insert(s: [u64; WORDS], p: usize) -> [u64; WORDS]
    ensures { Same (members result) (including p (members s)) }
{
    let mut r = s;
    if p < LIMIT {
        let k = p / 64;
        let b = p % 64;
        r[k] = r[k] | (1u64 << b);
    }
    r
}

// Whether the sets have a member in common: one AND for each word.
pub fn meets(a: [u64; WORDS], b: [u64; WORDS]) -> bool
    ensures { result ≡ intersects (members a) (members b) }
{
    for k in 0..WORDS {
        if a[k] & b[k] != 0 {
            return true;
        }
    }
    false
}

// The members of either set: one OR for each word.
pub fn unite(a: [u64; WORDS], b: [u64; WORDS]) -> [u64; WORDS]
    ensures { (i : ℕ) → member i (members result) ≡ (member i (members a) || member i (members b)) }
{
    let mut r = a;
    for k in 0..WORDS {
        r[k] = r[k] | b[k];
    }
    r
}

// The ancestors of each purpose of the tree.
fn upward(t: Tree) -> [[u64; WORDS]; LIMIT]
    ensures { (i : ℕ) → i < length (tree_held t) → (a : ℕ) → member a (members (get_or result i [])) ≡ descends (tree_held t) i a }
{
    let n = size(t);
    let mut up = [[0u64; WORDS]; LIMIT];
    for i in 0..n {
        let q = t.parents[i] as usize;
        if q < i {
            let above = up[q];
            up[i] = insert(above, i);
        } else {
            up[i] = insert(no_members(), i);
        }
    }
    up
}

// The ancestors of p with those of the first n purposes that have p among their ancestors.
fn relatives(up: &[[u64; WORDS]; LIMIT], n: usize, p: usize) -> [u64; WORDS]
    requires { (n ≤ limit) × (p < n) }
    ensures { (d : ℕ) → member d (members result) ≡ (member d (members (get_or up.now p [])) || (ltb d n && member p (members (get_or up.now d [])))) }
{
    let mut r = up[p];
    for i in 0..n {
        let s = up[i];
        if contains(s, p) {
            let more = insert(r, i);
            r = more;
        }
    }
    r
}

// The closure of p: both sets are empty if the tree has no p.
pub fn closure_of(t: Tree, p: usize) -> Closure
    ensures { ClosureOf (tree_held t) p result }
{
    let n = size(t);
    if p < n {
        let up = upward(t);
        let a = up[p];
        let r = relatives(&up, n, p);
        return Closure {
            ancestors: a,
            relatives: r,
        };
    }
    let none = no_members();
    Closure {
        ancestors: none,
        relatives: none,
    }
}

// Whether a is the purpose whose closure is given, or stands above it.
pub fn is_above(c: Closure, a: usize) -> bool
    ensures { result ≡ is_above c a }
{
    let above = c.ancestors;
    contains(above, a)
}

// Whether the purpose whose closure is given is open under the label: two ANDs for each word.
pub fn admits(c: Closure, l: Label) -> bool
    ensures { result ≡ admitted c l }
{
    let ancestors = c.ancestors;
    let allowed = l.allowed;
    if meets(ancestors, allowed) {
        let relatives = c.relatives;
        let denied = l.denied;
        !meets(relatives, denied)
    } else {
        false
    }
}

// What the label says of the purpose whose closure is given: two ANDs for each word.
pub fn verdict_of(c: Closure, l: Label) -> Verdict
    ensures { result ≡ verdict_by c l }
{
    let ancestors = c.ancestors;
    let allowed = l.allowed;
    let relatives = c.relatives;
    let denied = l.denied;
    Verdict {
        allowed: meets(ancestors, allowed),
        denied: meets(relatives, denied),
    }
}

// The lower verdict merged over the upper.
pub fn merged_over(upper: Verdict, lower: Verdict) -> Verdict
    ensures { result ≡ over upper lower }
{
    if lower.allowed {
        return Verdict {
            allowed: true,
            denied: lower.denied,
        };
    }
    if lower.denied {
        return Verdict {
            allowed: upper.allowed,
            denied: true,
        };
    }
    upper
}

// Whether a cell of a nest table is open, by the strong verdict, the weak one of its table and row, and its own.
pub fn nest_open(strong: Verdict, inherited: Verdict, cell: Verdict) -> bool
    ensures { result ≡ open_by strong (over inherited cell) }
{
    if strong.denied {
        return false;
    }
    if strong.allowed {
        return true;
    }
    let weak = merged_over(inherited, cell);
    if weak.denied {
        return false;
    }
    weak.allowed
}

// Whether p is open under the label.
pub fn open(t: Tree, l: Label, p: usize) -> bool
    ensures { result ≡ opens (tree_held t) (marks_held l) p }
{
    admits(closure_of(t, p), l)
}
