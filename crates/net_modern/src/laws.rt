ghost use Rattle.net_modern.specs.Laws.{IsRewrittenOnce, StaysValid};

/// A package that was rewritten is as later releases write it: to rewrite it again changes nothing.
pub fn rewritten_once()
    ensures { IsRewrittenOnce }
{}

/// A valid package stays valid.
pub fn stays_valid()
    ensures { StaysValid }
{}
