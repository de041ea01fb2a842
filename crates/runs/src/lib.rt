// Runs of the calls, worked out by computation over the definitions that the contracts cite: the cases that are to be proved (R16), the sixteen
// changes of link and duplex (R8), and two switches that form a trunk and lose a link.
#![tactic(auto)]
