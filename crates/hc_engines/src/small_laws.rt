// What is true of BigHash by itself.
ghost use Rattle.hc_engines.specs.small.Held.{FullIsTrue, HeldIsTold, KeptByOthers, ResumeGoes, ResumeKeeps, StartGoes, StartKeeps, WordTells};
ghost use Rattle.hc_engines.specs.small.Sound.{NoPageGivesUp, ResumeIsSound, StartIsSound};

/// A started operation keeps what BigHash is, and changes what it holds exactly by its outcome. The function does
/// nothing: its contract is the law.
pub fn start_keeps()
    ensures { StartKeeps }
{}

/// So does a result that is handed in.
pub fn resume_keeps()
    ensures { ResumeKeeps }
{}

/// A word tells of each key of its page. It may tell of others too.
pub fn word_tells()
    ensures { WordTells }
{}

/// BigHash says that it could have each key that it holds.
pub fn held_is_told()
    ensures { HeldIsTold }
{}

/// What is written outside its buckets' pages changes nothing for BigHash.
pub fn kept_by_others()
    ensures { KeptByOthers }
{}

/// A started operation is under way with its order until it is over; the others go on as they were.
pub fn start_goes()
    ensures { StartGoes }
{}

/// What was handed in moves its operation on, or ends it; the others go on as they were.
pub fn resume_goes()
    ensures { ResumeGoes }
{}

/// What a put forgets is what it pushes out, as the rules of a log say it: the key was on the page, and with what stood
/// behind it and the new entry it passes the page.
pub fn full_is_true()
    ensures { FullIsTrue }
{}

/// An operation that is started leaves BigHash one that can be called.
pub fn start_is_sound()
    ensures { StartIsSound }
{}

/// So does any result at all that is handed in, honest or not.
pub fn resume_is_sound()
    ensures { ResumeIsSound }
{}

/// Bytes that are no page give the bucket up for which they were read: it is fresh, and its loss is told.
pub fn no_page_gives_up()
    ensures { NoPageGivesUp }
{}
