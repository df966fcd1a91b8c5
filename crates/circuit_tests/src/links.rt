//! Links between lists.
ghost use Rattle.std.specs.Prelude.{◌≡◌, ◌<◌};
ghost use Rattle.hy_links.specs.Arena.{HasList};

use hy_links::{Link, LinkFault, Links};
use std::test::Fail;

const NODES: u32 = 100_000;

/// Makes a node and puts its first link in front of the list.
fn push_new(links: &mut Links, list: u32) -> Result<Link, LinkFault>
    requires { list < links.old.lists }
    ensures { links.new.lists ≡ links.old.lists }
{
    links.is_linked_once();
    let link = Link {
        node: links.make()?,
        side: 0,
    };
    links.push(list, link);
    Ok(link)
}

/// Puts the first link of one list in front of another.
fn shift(links: &mut Links, from: u32, to: u32) -> Option<Link>
    requires from_made { HasList links.old from }
    requires to_made { HasList links.old to }
    ensures lists { links.new.lists ≡ links.old.lists }
    ensures nodes { links.new.nodes ≡ links.old.nodes }
{
    let link = links.walk(from, None)?;
    links.is_linked_once();
    links.unlink(link);
    links.push(to, link);
    Some(link)
}

/// Whether a walk meets the first links of all nodes, from the last node to the first.
fn has_all_downwards(links: &Links, list: u32) -> bool
    requires { HasList links.now list }
{
    let mut current = None;
    for node in (0..NODES).rev() {
        current = links.walk(list, current);
        if current != Some(Link { node, side: 0 }) {
            return false;
        }
    }
    links.walk(list, current).is_none()
}

#[test]
fn many_links_move_between_lists_in_order(rt: HostRuntime) -> Result<(), Fail> {
    let mut links = Links::new(rt.alloc(), 2)?;
    for node in 0..NODES {
        assert_eq!(rt; push_new(&mut links, 0)?, Link { node, side: 0 });
    }
    assert!(rt; has_all_downwards(&links, 0));
    links.move_all(0, 1);
    assert_eq!(rt; links.walk(0, None), None);
    assert!(rt; has_all_downwards(&links, 1));
    for node in (0..NODES).rev() {
        assert_eq!(rt; shift(&mut links, 1, 0), Some(Link { node, side: 0 }));
    }
    assert_eq!(rt; links.walk(1, None), None);
    assert_eq!(rt; links.walk(0, None), Some(Link { node: 0, side: 0 }));
    Ok(())
}
