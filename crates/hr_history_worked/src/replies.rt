//! What sessions are told, and how transactions ended.
ghost use Rattle.std.specs.Prelude.{◌≡◌, true, Some, None};
ghost use Rattle.hr_rel.specs.declared.answer.Answer.TheVariants.{Count};
ghost use Rattle.hr_history.specs.declared.reply.Reply.TheVariants.{Answered};
ghost use Rattle.hr_history.specs.declared.reply.Ending.TheVariants as ending;
ghost use Rattle.hr_history.specs.declared.cause.Cause.TheVariants as cause;
ghost use Rattle.hr_history.specs.declared.cause.Why.TheVariants as why;
ghost use Rattle.hr_history.specs.History.{history_of};
ghost use Rattle.hr_history.specs.Faithful.{is_faithful};
ghost use Rattle.hr_history.specs.Replies.{Replied, reply_to, ending_of};
ghost use Rattle.hr_history_worked.specs.Primaries.{refused_after_its_answer};
ghost use Rattle.hr_history_worked.specs.GivingWay.{rolled_back};
ghost use Rattle.hr_history_worked.specs.Losses.{memory_wanting};

/// The first reply stands, whatever becomes of the transaction.
pub fn first_reply()
    ensures faithful { is_faithful 1 1 (history_of refused_after_its_answer) ≡ true }
    ensures reply { reply_to 1 (history_of refused_after_its_answer) ≡ Replied (Answered (Count 1)) }
{}

/// Transactions that were committed, rolled back, refused, and one that is open.
pub fn endings()
    ensures committed { ending_of 2 (history_of rolled_back) ≡ Some (ending.Committed 1) }
    ensures rolled_back { ending_of 3 (history_of rolled_back) ≡ Some ending.RolledBack }
    ensures refused { ending_of 1 (history_of refused_after_its_answer) ≡ Some (ending.Refused (cause.PrimaryChanged 0 why.Suspected)) }
    ensures out_of_memory { ending_of 1 (history_of memory_wanting) ≡ Some (ending.Refused cause.PrimaryMemory) }
    ensures open { ending_of 2 (history_of refused_after_its_answer) ≡ None }
{}
