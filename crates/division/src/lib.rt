// Division of bit strings modulo 2 by a generator of any width: the algebra on which the cyclic checks rest.
// specs/Laws.antt states what is proved: the law of division, linearity, which differences leave no remainder,
// for which distances two changed bits go unseen, and how many bits differ at least by the length. The crate has no functions.
#![tactic(auto)]
