// The box's secret (request 2.7): no answer before close, and no display, tells the hidden card. There is no code here.
#![tactic(auto)]
