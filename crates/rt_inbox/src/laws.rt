//! What is proved of the rule itself, whatever the code does.
ghost use Rattle.std.specs.Prelude.{◌≡◌, ℕ, [], ◌∷◌, ◌++◌, ◌+◌, length};
ghost use Rattle.std.specs.Prelude.{List as Items};
ghost use Rattle.crossbeam_queue.specs.Fifo.{Pushes, Pops, Forks, Merges, Learns};
ghost use Rattle.rt_inbox.specs.declared.message.Post.{Post};
ghost use Rattle.rt_inbox.specs.declared.message.Msg.{Msg};
ghost use Rattle.rt_inbox.specs.declared.view.View.TheVariants.{Posting, Owning, Spent};
ghost use Rattle.rt_inbox.specs.Rule.{Entry, Delivers, WasAt};

/// Each of the five kinds of step keeps the rule: a push, a pop of a message, a pop that finds
/// none, making a poster's pass, and joining one to the owner's.
pub fn steps_keep_the_rule()
    ensures pushed { (n pass number : ℕ) (posts : Items Post) (what : Post)
        → Pushes Delivers n pass (Posting number posts)
        (record { poster = number; seq = length posts; what = what })
        (λ w. w ≡ Posting number (posts ++ what ∷ [])) }
    ensures popped { (pass made : ℕ) (taken : Items Msg) (joined : Items Entry)
        → Pops Delivers pass (Owning taken made joined)
        (λ x w. (w ≡ Owning (taken ++ x ∷ []) made joined)
        × ((items : Items Msg) × WasAt items w)) }
    // It leaves every view as it is, and tells the rule of an empty queue.
    ensures found_none { (pass made : ℕ) (taken : Items Msg) (joined : Items Entry)
        → Learns Delivers pass (Owning taken made joined)
        (λ items. WasAt items (Owning taken made joined)) }
    ensures made { (pass made : ℕ) (taken : Items Msg) (joined : Items Entry)
        → Forks Delivers pass (Owning taken made joined)
        (Owning taken (made + 1) joined) (Posting made []) }
    ensures joined { (pass made : ℕ) (taken : Items Msg) (joined : Items Entry)
        (other number : ℕ) (posts : Items Post)
        → Merges Delivers pass (Owning taken made joined) other (Posting number posts)
        (Owning taken made ((number, posts) ∷ joined)) Spent }
{}
