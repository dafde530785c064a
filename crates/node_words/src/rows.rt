// The octants of a node as a row of what may be shares.
ghost use Rattle.std.specs.Prelude.{◌≡◌, ◌<◌, ℕ, None, length, slice_set};
ghost use Rattle.node_words.specs.Held.{name_in};

use crate::shapes::Name;
use crate::shares::Share;

/// The name of each share of a row.
#[inline(always)]
pub fn names_of(children: &[Option<Share>; 8]) -> [Option<Name>; 8]
    ensures { result ≡ children.now }
{
    [
        name_of(&children[0]),
        name_of(&children[1]),
        name_of(&children[2]),
        name_of(&children[3]),
        name_of(&children[4]),
        name_of(&children[5]),
        name_of(&children[6]),
        name_of(&children[7]),
    ]
}

#[inline(always)]
fn name_of(share: &Option<Share>) -> Option<Name>
    ensures { result ≡ share.now }
{
    match share {
        Some(share) => Some(share.name()),
        None => None,
    }
}

/// For implementers of a store: a share of each name of a row, which the store has counted.
pub fn shares_of(names: &[Option<Name>; 8]) -> [Option<Share>; 8]
    ensures { result ≡ names.now }
{
    [
        share_of(names[0]),
        share_of(names[1]),
        share_of(names[2]),
        share_of(names[3]),
        share_of(names[4]),
        share_of(names[5]),
        share_of(names[6]),
        share_of(names[7]),
    ]
}

fn share_of(name: Option<Name>) -> Option<Share>
    ensures { result ≡ name }
{
    match name {
        Some(name) => Some(Share::of_store(name)),
        None => None,
    }
}

/// What may be a share is taken out of its place in a row.
pub fn take_at(children: &mut [Option<Share>], k: usize) -> Option<Share>
    requires { k < length children.old }
    ensures taken { result ≡ name_in children.old k }
    ensures left { children.new ≡ slice_set children.old k None }
{
    std::mem::replace(&mut children[k], None)
}

/// A place without a share may be let go.
pub fn end(share: Option<Share>)
    requires { share ≡ None }
{
    match share {
        None => {}
        Some(_share) => unreachable!(),
    }
}

/// A row without a share may be let go.
pub fn end_all(children: [Option<Share>; 8])
    requires { (k : ℕ) → k < 8 → name_in children k ≡ None }
{
    let [a, b, c, d, e, f, g, h] = children;
    end(a);
    end(b);
    end(c);
    end(d);
    end(e);
    end(f);
    end(g);
    end(h);
}

/// For implementers of a store: the references of a row are used up.
pub fn spend_all(children: [Option<Share>; 8]) {
    let [a, b, c, d, e, f, g, h] = children;
    spend(a);
    spend(b);
    spend(c);
    spend(d);
    spend(e);
    spend(f);
    spend(g);
    spend(h);
}

fn spend(share: Option<Share>) {
    match share {
        Some(share) => {
            let _name = share.spend();
        }
        None => {}
    }
}
