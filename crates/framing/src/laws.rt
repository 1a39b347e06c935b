//! Laws of messages and streams, over the definitions alone. The functions do nothing when they run: their
//! contracts are the laws.
ghost use Rattle.std.specs.Prelude.{◌≡◌, ℕ, List, [], ◌∷◌, ◌++◌};
ghost use Rattle.std.specs.List.{concat};
ghost use Rattle.framing.specs.Message.{MessageView, ReadsMessage, ReadsMessages, End, Ends, IsStream};
ghost use Rattle.framing.specs.Pieces.{IsMessage, AreMessages};

/// No message is the beginning of another.
pub fn no_message_begins_another()
    ensures { (bytes more : List ℕ) (a b : MessageView) → ReadsMessage bytes a []
        → ReadsMessage (bytes ++ more) b [] → more ≡ [] }
{}

/// A stream splits into messages in one way, and has one end.
pub fn one_stream()
    ensures { (bytes : List ℕ) (a b : List MessageView) (x y : End)
        → IsStream bytes a x → IsStream bytes b y → (a ≡ b) × (x ≡ y) }
{}

/// The bytes of messages, one after another, and then a rest are a stream of these messages, with the end of the rest.
pub fn messages_make_a_stream()
    ensures { (pieces : List (List ℕ)) (messages : List MessageView) (rest : List ℕ) (end : End)
        → AreMessages pieces messages → Ends rest end
        → IsStream (concat pieces ++ rest) messages end }
{}

/// Each stream is the bytes of its messages, one after another, and then a rest with its end, so the bytes of any
/// message can be removed: the stream of the others is left, with the same end.
pub fn a_stream_is_made_of_messages()
    ensures { (bytes : List ℕ) (messages : List MessageView) (end : End) → IsStream bytes messages end
        → (pieces : List (List ℕ)) × (rest : List ℕ) × (bytes ≡ concat pieces ++ rest)
        × AreMessages pieces messages × Ends rest end }
{}

/// Removing the bytes of one message from a stream leaves the stream of the others, with the same end.
pub fn a_message_may_be_taken_out()
    ensures { (front bytes back : List ℕ) (before after : List MessageView) (message : MessageView) (end : End)
        → ReadsMessages front before [] → IsMessage bytes message
        → IsStream (front ++ (bytes ++ back)) (before ++ message ∷ after) end
        → IsStream (front ++ back) (before ++ after) end }
{}
