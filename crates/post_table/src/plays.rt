//! What each kind of step does to the views, and what it tells.
ghost use Rattle.post_table.specs.Steps.{chooses, gets, learns, looks_to_post, looks_to_take, posts};
ghost use Rattle.post_table.specs.Views.{both_of, parted, spent_view, without};

use crate::view::View;
use atomic_table::{Join, Play, Split};
use segment_core::Segment;

pub(crate) struct Chooses;

impl Play<Segment, View> for Chooses {
    ghost then = { chooses };
}

pub(crate) struct Parts;

impl Split<View> for Parts {
    ghost left = { λ v. without v.number v };

    ghost right = { λ v. parted v.number v };
}

pub(crate) struct Meets;

impl Join<View> for Meets {
    ghost both = { λ v other. both_of v other };

    ghost spent = { spent_view };
}

pub(crate) struct Learns;

impl Play<Segment, View> for Learns {
    ghost then = { learns };
}

pub(crate) struct LooksToPost;

impl Play<Segment, View> for LooksToPost {
    ghost then = { looks_to_post };
}

pub(crate) struct Posts;

impl Play<Segment, View> for Posts {
    ghost then = { posts };
}

pub(crate) struct LooksToTake;

impl Play<Segment, View> for LooksToTake {
    ghost then = { looks_to_take };
}

pub(crate) struct Gets;

impl Play<Segment, View> for Gets {
    ghost then = { gets };
}
