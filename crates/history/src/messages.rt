//! What becomes of a message.
ghost use Rattle.std.specs.Prelude.{◌≡◌};
ghost use Rattle.history.specs.Messages.{post_number, post_after, is_on_its_way};

use super::refusals::Refusal;

/// The state of a message, with the number by which it is known.
#[derive(Clone, Copy, PartialEq, Eq, Debug)]
pub enum Post {
    /// Never sent.
    Unsent = 0,
    /// Sent, and not yet received.
    OnItsWay = 1,
    /// Received.
    Delivered = 2,
}

/// The number of a state.
impl From<Post> for u8 {
    ghost from_gives = { λ post n. n ≡ post_number post };

    fn from(post: Post) -> u8 {
        post as u8
    }
}

/// What a call does with a message.
#[derive(Clone, Copy, PartialEq, Eq, Debug)]
pub enum Handling {
    /// A unit sends it.
    Sending,
    /// A unit receives it.
    Receiving,
}

impl Post {
    /// What a message is before anything is sent.
    pub const UNSENT: Post = Post::Unsent;

    /// What a send or a receipt makes of the message. Refuses a second send (7), the receipt of a message never sent (8) and a second
    /// receipt (9).
    pub fn after(self, handling: Handling) -> Result<Post, Refusal>
        ensures { result ≡ post_after self handling }
    {
        match (self, handling) {
            (Post::Unsent, Handling::Sending) => Ok(Post::OnItsWay),
            (Post::OnItsWay, Handling::Receiving) => Ok(Post::Delivered),
            (Post::OnItsWay | Post::Delivered, Handling::Sending) => Err(Refusal::SentBefore),
            (Post::Unsent, Handling::Receiving) => Err(Refusal::NeverSent),
            (Post::Delivered, Handling::Receiving) => Err(Refusal::ReceivedBefore),
        }
    }

    /// Whether the message is on its way: sent, and not yet received.
    pub fn is_on_its_way(self) -> bool
        ensures { result ≡ is_on_its_way self }
    {
        matches!(self, Post::OnItsWay)
    }
}
