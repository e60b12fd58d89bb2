// No shorter timetable for this plan: the routes of racks, the visits of positions, and that no legal timetable which keeps them has fewer
// steps than the one that the making rule makes. There is no code here.
#![tactic(auto)]
